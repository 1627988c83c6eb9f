//! Designators, function references and structure constructors, as they are spelled (6.1).

ghost use Rattle.std.specs.Prelude.{◌≤◌, ◌<◌, IfOk, length};
ghost use Rattle.f3_tree.specs.Expressions.{designator_view};
ghost use Rattle.f3_words.specs.Lists.{EatsRun, Separated};
ghost use Rattle.f3_words.specs.Reads.{Reads, AreBehind};
ghost use Rattle.f3_expressions.specs.Grammar.{is_percent, EatsParts, EatsDesignator};
ghost use Rattle.f3_expressions.specs.Readings.{IsPart};
ghost use Rattle.f3_expressions.specs.Views.{named_view, parts_view};

use crate::arguments::within;
use crate::marks::behind;
use f3_tree::expression::{Argument, Name};
use f3_words::error::ReadError;
use f3_words::item::{Item, Word};
use f3_words::reading::name_front;
use std::alloc::Global;

/// The designator at the front, up to where nothing goes on with it (6.1). NoForm: none stands there.
pub fn designator(
    alloc: Global,
    items: &[Item],
) -> Result<(Vec<(Name, Option<Vec<Argument>>)>, &[Item]), ReadError>
    ensures read { Reads EatsDesignator designator_view result items.now }
    ensures shorter { IfOk result (λ x. length x.1.now < length items.now) }
{
    parts(alloc, items)
}

/// The parts of the designator at the front.
#[cycle(operation)]
pub fn parts(
    alloc: Global,
    items: &[Item],
) -> Result<(Vec<(Name, Option<Vec<Argument>>)>, &[Item]), ReadError>
    ensures read { Reads EatsParts designator_view result items.now }
    ensures shorter { IfOk result (λ x. length x.1.now < length items.now) }
{
    let (first, rest) = part(alloc, items)?;
    components(alloc, first, rest)
}

/// A name at the front, and its arguments where there are parentheses.
#[cycle(operation)]
fn part(
    alloc: Global,
    items: &[Item],
) -> Result<((Name, Option<Vec<Argument>>), &[Item]), ReadError>
    ensures read { Reads IsPart named_view result items.now }
    ensures shorter { IfOk result (λ x. length x.1.now < length items.now) }
{
    match name_front(items) {
        None => Err(ReadError::NoForm),
        Some((item, tail)) => match behind(Word::Open, tail) {
            Some(_) => {
                let (arguments, rest) = within(alloc, tail)?;
                Ok(((item.name(), Some(arguments)), rest))
            }
            None => Ok(((item.name(), None), tail)),
        },
    }
}

/// The first part of a designator, and those at the front, each behind a `%`.
#[cycle(operation)]
fn components(
    alloc: Global,
    first: (Name, Option<Vec<Argument>>),
    items: &[Item],
) -> Result<(Vec<(Name, Option<Vec<Argument>>)>, &[Item]), ReadError>
    ensures read { Reads (AreBehind (named_view first) (EatsRun is_percent (Separated IsPart))) parts_view result items.now }
    ensures shorter { IfOk result (λ x. length x.1.now ≤ length items.now) }
{
    let mut found = Vec::with_capacity(alloc, 1)?;
    found.push(first)?;
    let mut rest = items;
    while let Some(tail) = behind(Word::Percent, rest) {
        let (component, after) = part(alloc, tail)?;
        found.push(component)?;
        rest = after;
    }
    found.shrink_to_fit();
    Ok((found, rest))
}
