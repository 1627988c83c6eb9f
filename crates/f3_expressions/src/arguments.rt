//! Arguments, subscripts and triplets, as they are spelled (12.4.1, 6.2.2).

ghost use Rattle.std.specs.Prelude.{◌≤◌, ◌<◌, IfOk, length};
ghost use Rattle.f3_tree.specs.Expressions.{argument_view};
ghost use Rattle.f3_words.specs.Lists.{is_comma, EatsRun, Separated};
ghost use Rattle.f3_words.specs.Reads.{Reads, AreBehind};
ghost use Rattle.f3_expressions.specs.Grammar.{EatsArguments};
ghost use Rattle.f3_expressions.specs.Readings.{EatsList, IsArgument, IsPositional, IsBound, IsStride, IsTriplet};
ghost use Rattle.f3_expressions.specs.Views.{arguments_view, bound_view};

use crate::expressions::operation;
use crate::levels::WHOLE;
use crate::marks::{behind, bound_ends, keyword_front};
use f3_places::source::Place;
use f3_tree::expression::{Argument, Expression};
use f3_words::error::ReadError;
use f3_words::item::{Item, Word};
use f3_words::reading::front;
use std::alloc::Global;

/// The arguments in the parentheses at the front (12.4). NoForm: none stand there.
pub fn arguments(alloc: Global, items: &[Item]) -> Result<(Vec<Argument>, &[Item]), ReadError>
    ensures read { Reads EatsArguments arguments_view result items.now }
    ensures shorter { IfOk result (λ x. length x.1.now < length items.now) }
{
    within(alloc, items)
}

/// The arguments in the parentheses at the front.
#[cycle(operation)]
pub fn within(alloc: Global, items: &[Item]) -> Result<(Vec<Argument>, &[Item]), ReadError>
    ensures read { Reads EatsList arguments_view result items.now }
    ensures shorter { IfOk result (λ x. length x.1.now < length items.now) }
{
    match behind(Word::Open, items) {
        None => Err(ReadError::NoForm),
        Some(inner) => match behind(Word::Close, inner) {
            Some(tail) => Ok((Vec::new(alloc), tail)),
            None => {
                let (first, rest) = argument(alloc, inner)?;
                let (found, rest) = further(alloc, first, rest)?;
                match behind(Word::Close, rest) {
                    Some(tail) => Ok((found, tail)),
                    None => Err(ReadError::NoForm),
                }
            }
        },
    }
}

/// The first argument, and those at the front, each behind a comma.
#[cycle(operation)]
fn further(
    alloc: Global,
    first: Argument,
    items: &[Item],
) -> Result<(Vec<Argument>, &[Item]), ReadError>
    ensures read { Reads (AreBehind (argument_view first) (EatsRun is_comma (Separated IsArgument))) arguments_view result items.now }
    ensures shorter { IfOk result (λ x. length x.1.now ≤ length items.now) }
{
    let mut found = Vec::with_capacity(alloc, 1)?;
    found.push(first)?;
    let mut rest = items;
    while let Some(tail) = behind(Word::Comma, rest) {
        let (argument, after) = argument(alloc, tail)?;
        found.push(argument)?;
        rest = after;
    }
    found.shrink_to_fit();
    Ok((found, rest))
}

/// The argument at the front (R1220, R618).
#[cycle(operation)]
fn argument(alloc: Global, items: &[Item]) -> Result<(Argument, &[Item]), ReadError>
    ensures read { Reads IsArgument argument_view result items.now }
    ensures shorter { IfOk result (λ x. length x.1.now < length items.now) }
{
    match keyword_front(items) {
        Some((keyword, tail)) => {
            let (value, rest) = operation(alloc, WHOLE, tail)?;
            Ok((Argument::Value(Some(keyword), value), rest))
        }
        None => positional(alloc, items),
    }
}

/// The argument at the front, where no keyword stands before it.
#[cycle(operation)]
fn positional(alloc: Global, items: &[Item]) -> Result<(Argument, &[Item]), ReadError>
    ensures read { Reads IsPositional argument_view result items.now }
    ensures shorter { IfOk result (λ x. length x.1.now < length items.now) }
{
    match front(items) {
        None => Err(ReadError::NoForm),
        Some((item, _)) => {
            match behind(Word::Colon, items) {
                Some(tail) => triplet(alloc, item.place, None, tail),
                None => {
                    let (first, rest) = operation(alloc, WHOLE, items)?;
                    match behind(Word::Colon, rest) {
                        Some(tail) => triplet(alloc, item.place, Some(first), tail),
                        None => Ok((Argument::Value(None, first), rest)),
                    }
                }
            }
        }
    }
}

/// What stands behind the first colon of a triplet: its place, its first bound.
#[cycle(operation)]
fn triplet(
    alloc: Global,
    place: Place,
    first: Option<Expression>,
    items: &[Item],
) -> Result<(Argument, &[Item]), ReadError>
    ensures read { Reads (IsTriplet place (bound_view first)) argument_view result items.now }
    ensures shorter { IfOk result (λ x. length x.1.now ≤ length items.now) }
{
    let (last, rest) = bound(alloc, items)?;
    let (stride, rest) = stride(alloc, rest)?;
    Ok((Argument::Triplet(place, first, last, stride), rest))
}

/// The expression at the front; none where a sign that ends a bound stands there.
#[cycle(operation)]
fn bound(alloc: Global, items: &[Item]) -> Result<(Option<Expression>, &[Item]), ReadError>
    ensures read { Reads IsBound bound_view result items.now }
    ensures shorter { IfOk result (λ x. length x.1.now ≤ length items.now) }
{
    if bound_ends(items) {
        Ok((None, items))
    } else {
        let (bound, rest) = operation(alloc, WHOLE, items)?;
        Ok((Some(bound), rest))
    }
}

/// The second colon of a triplet at the front and the stride behind it, where they are written.
#[cycle(operation)]
fn stride(alloc: Global, items: &[Item]) -> Result<(Option<Expression>, &[Item]), ReadError>
    ensures read { Reads IsStride bound_view result items.now }
    ensures shorter { IfOk result (λ x. length x.1.now ≤ length items.now) }
{
    match behind(Word::Colon, items) {
        Some(tail) => {
            let (stride, rest) = operation(alloc, WHOLE, tail)?;
            Ok((Some(stride), rest))
        }
        None => Ok((None, items)),
    }
}
