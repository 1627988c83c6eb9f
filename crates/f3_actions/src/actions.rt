//! Action statements.

ghost use Rattle.std.specs.Prelude.{◌≡◌, map};
ghost use Rattle.f3_tree.specs.Expressions.{expression_view, argument_view};
ghost use Rattle.f3_tree.specs.Statements.{action_view};
ghost use Rattle.f3_words.specs.Reads.{Reads, Finds};
ghost use Rattle.f3_actions.specs.Actions.{IsAssignment, IsCallArguments, IsCall, IsAllocate, IsDeallocate, EatsItems, IsPrint, stop_code, IsStop, IsAlone, IsActionOf, IsHeadedAction, IsAction};

use crate::allocations::allocation;
use f3_expressions::arguments::arguments;
use f3_expressions::designators::designator;
use f3_expressions::expressions::expression;
use f3_reading::lists::others;
use f3_reading::signs::{is_over, name, skip};
use f3_tree::expression::{Argument, Expression, IntegerLiteral, Operator};
use f3_tree::statement::Action;
use f3_words::error::ReadError;
use f3_words::item::{Item, Keyword, Word};
use f3_words::reading::front;
use std::alloc::Global;

/// The assignment that all of the tokens are.
#[tactic(auto, unfolding(crate::specs::Actions::IsAssignment))]
fn assignment(alloc: Global, items: &[Item]) -> Result<Action, ReadError>
    ensures { Finds IsAssignment action_view result items.now }
{
    let (variable, rest) = designator(alloc, items)?;
    let rest = skip(Word::Equals, rest)?;
    let (value, rest) = expression(alloc, rest)?;
    if is_over(rest) {
        Ok(Action::Assign(variable, value))
    } else {
        Err(ReadError::NoForm)
    }
}

/// The arguments of a CALL, behind the name of its subroutine.
#[tactic(auto, unfolding(crate::specs::Actions::IsCallArguments))]
fn call_arguments(alloc: Global, items: &[Item]) -> Result<Vec<Argument>, ReadError>
    ensures { Finds IsCallArguments (λ v. map argument_view v.items) result items.now }
{
    if is_over(items) {
        return Ok(Vec::new(alloc));
    }
    let (found, rest) = arguments(alloc, items)?;
    if is_over(rest) {
        Ok(found)
    } else {
        Err(ReadError::NoForm)
    }
}

/// What stands behind CALL.
#[tactic(auto, unfolding(crate::specs::Actions::IsCall))]
fn call(alloc: Global, items: &[Item]) -> Result<Action, ReadError>
    ensures { Finds IsCall action_view result items.now }
{
    let (subroutine, rest) = name(items)?;
    let arguments = call_arguments(alloc, rest)?;
    Ok(Action::Call(subroutine, arguments))
}

/// What stands behind ALLOCATE.
#[tactic(auto, unfolding(crate::specs::Actions::IsAllocate))]
fn allocate(alloc: Global, items: &[Item]) -> Result<Action, ReadError>
    ensures { Finds IsAllocate action_view result items.now }
{
    let (objects, status) = allocation(alloc, items)?;
    Ok(Action::Allocate(objects, status))
}

/// What stands behind DEALLOCATE.
#[tactic(auto, unfolding(crate::specs::Actions::IsDeallocate))]
fn deallocate(alloc: Global, items: &[Item]) -> Result<Action, ReadError>
    ensures { Finds IsDeallocate action_view result items.now }
{
    let (objects, status) = allocation(alloc, items)?;
    Ok(Action::Deallocate(objects, status))
}

/// The items of a PRINT at the front, each behind a comma.
fn print_items(alloc: Global, items: &[Item]) -> Result<(Vec<Expression>, &[Item]), ReadError>
    ensures { Reads EatsItems (λ v. map expression_view v.items) result items.now }
{
    others(alloc, items, |tokens| expression(alloc, tokens))
}

/// What stands behind PRINT.
#[tactic(auto, unfolding(crate::specs::Actions::IsPrint))]
fn print(alloc: Global, items: &[Item]) -> Result<Action, ReadError>
    ensures { Finds IsPrint action_view result items.now }
{
    let rest = skip(Word::Operator(Operator::Multiply), items)?;
    let (found, rest) = print_items(alloc, rest)?;
    if is_over(rest) {
        Ok(Action::Print(found))
    } else {
        Err(ReadError::NoForm)
    }
}

/// The value of an integer of one to five digits without a suffix (8.4).
fn stop_code(word: Word, value: IntegerLiteral) -> Option<i32>
    ensures { result ≡ stop_code word value }
{
    match value {
        IntegerLiteral::Four(code) => match word {
            Word::KindDigit(_) => Some(code),
            Word::ShortInteger => Some(code),
            _ => None,
        },
        IntegerLiteral::Eight(_) => None,
    }
}

/// What stands behind STOP.
#[tactic(auto, unfolding(crate::specs::Actions::IsStop))]
fn stop(items: &[Item]) -> Result<Action, ReadError>
    ensures { Finds IsStop action_view result items.now }
{
    match front(items) {
        None => Ok(Action::Stop(None)),
        Some((digits, tail)) => match stop_code(digits.word, digits.value) {
            Some(code) => {
                if is_over(tail) {
                    Ok(Action::Stop(Some(code)))
                } else {
                    Err(ReadError::NoForm)
                }
            }
            None => Err(ReadError::NoForm),
        },
    }
}

/// What stands behind the keyword of an action.
fn action_of(alloc: Global, keyword: Keyword, items: &[Item]) -> Result<Action, ReadError>
    ensures { Finds (IsActionOf keyword) action_view result items.now }
{
    match keyword {
        Keyword::Call => call(alloc, items),
        Keyword::Allocate => allocate(alloc, items),
        Keyword::Deallocate => deallocate(alloc, items),
        Keyword::Print => print(alloc, items),
        Keyword::Stop => stop(items),
        Keyword::Return => alone(Action::Return, items),
        Keyword::Cycle => alone(Action::Cycle, items),
        Keyword::Exit => alone(Action::Exit, items),
        Keyword::Continue => alone(Action::Continue, items),
        _ => Err(ReadError::NoForm),
    }
}

/// The action whose keyword stands alone.
fn alone(action: Action, items: &[Item]) -> Result<Action, ReadError>
    ensures { Finds (IsAlone (action_view action)) action_view result items.now }
{
    if is_over(items) {
        Ok(action)
    } else {
        Err(ReadError::NoForm)
    }
}

/// The action with a keyword that all of the tokens are.
#[tactic(auto, unfolding(crate::specs::Actions::IsHeadedAction))]
fn headed_action(alloc: Global, items: &[Item]) -> Result<Action, ReadError>
    ensures { Finds IsHeadedAction action_view result items.now }
{
    match front(items) {
        None => Err(ReadError::NoForm),
        Some((first, tail)) => match first.word {
            Word::Name(keyword) => Ok(action_of(alloc, keyword, tail)?),
            _ => Err(ReadError::NoForm),
        },
    }
}

/// The action that all of the tokens are. An assignment is one whatever its name is.
#[tactic(auto, unfolding(crate::specs::Actions::IsAction))]
pub fn action(alloc: Global, items: &[Item]) -> Result<Action, ReadError>
    ensures { Finds IsAction action_view result items.now }
{
    match assignment(alloc, items) {
        Ok(found) => Ok(found),
        Err(ReadError::Memory) => Err(ReadError::Memory),
        Err(ReadError::NoForm) => Ok(headed_action(alloc, items)?),
    }
}
