//! The objects of ALLOCATE and DEALLOCATE statements.

ghost use Rattle.std.specs.Prelude.{◌<◌, ◌≤◌, length, map, IfOk};
ghost use Rattle.f3_tree.specs.Expressions.{designator_view};
ghost use Rattle.f3_words.specs.Reads.{Reads, Finds};
ghost use Rattle.f3_reading.specs.Parts.{Skips};
ghost use Rattle.f3_actions.specs.Views.{allocation_view};
ghost use Rattle.f3_actions.specs.Actions.{EatsStatusHead, EatsObject, AreObjects, IsAllocation};

use f3_expressions::designators::designator;
use f3_reading::signs::{behind, is_over, skip};
use f3_tree::statement::Designator;
use f3_words::error::ReadError;
use f3_words::item::{Item, Keyword, Word};
use std::alloc::Global;

/// What stands behind `STAT =`.
#[tactic(auto, unfolding(crate::specs::Actions::EatsStatusHead))]
fn status_head(items: &[Item]) -> Result<&[Item], ReadError>
    ensures { Skips EatsStatusHead result items.now }
{
    let rest = skip(Word::Name(Keyword::Stat), items)?;
    skip(Word::Equals, rest)
}

/// The object at the front.
#[tactic(auto, unfolding(crate::specs::Actions::EatsObject))]
fn object(alloc: Global, items: &[Item]) -> Result<(Designator, &[Item]), ReadError>
    ensures read { Reads EatsObject designator_view result items.now }
    ensures shorter { IfOk result (λ x. length x.1.now < length items.now) }
{
    match status_head(items) {
        Ok(_) => Err(ReadError::NoForm),
        Err(ReadError::Memory) => Err(ReadError::Memory),
        Err(ReadError::NoForm) => {
            let (found, rest) = designator(alloc, items)?;
            Ok((found, rest))
        }
    }
}

/// The objects at the front with commas between them, and the STAT variable behind them.
fn objects(
    alloc: Global,
    items: &[Item],
) -> Result<((Vec<Designator>, Option<Designator>), &[Item]), ReadError>
    ensures { Reads AreObjects allocation_view result items.now }
{
    let mut found = Vec::new(alloc);
    let mut rest = items;
    'elements: loop {
        let (element, after) = object(alloc, rest)?;
        found.push(element)?;
        match behind(Word::Comma, after) {
            None => return Ok(((found, None), after)),
            Some(tail) => match status_head(tail) {
                Ok(variable) => {
                    let (status, last) = designator(alloc, variable)?;
                    return Ok(((found, Some(status)), last));
                }
                Err(ReadError::Memory) => return Err(ReadError::Memory),
                Err(ReadError::NoForm) => rest = tail,
            },
        }
    }
}

/// The objects and the STAT variable in the parentheses that all of the tokens are.
#[tactic(auto, unfolding(crate::specs::Actions::IsAllocation))]
pub fn allocation(
    alloc: Global,
    items: &[Item],
) -> Result<(Vec<Designator>, Option<Designator>), ReadError>
    ensures { Finds IsAllocation allocation_view result items.now }
{
    let rest = skip(Word::Open, items)?;
    let (found, rest) = objects(alloc, rest)?;
    let rest = skip(Word::Close, rest)?;
    if is_over(rest) {
        Ok(found)
    } else {
        Err(ReadError::NoForm)
    }
}
