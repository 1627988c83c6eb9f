//! The statements of IF, CASE, DO and ASSOCIATE constructs.

ghost use Rattle.std.specs.Prelude.{◌≡◌, ◌<◌, ◌≤◌, length, map, IfOk, Option};
ghost use Rattle.std.specs.Option.{option_map};
ghost use Rattle.f3_tree.specs.Expressions.{expression_view};
ghost use Rattle.f3_tree.specs.Statements.{case_view, selector_view, control_view, association_view};
ghost use Rattle.f3_words.specs.Lists.{starts};
ghost use Rattle.f3_words.specs.Reads.{Reads, Finds};
ghost use Rattle.f3_actions.specs.Views.{steps_view};
ghost use Rattle.f3_actions.specs.Inner.Readings.{HasColon, EatsCaseBehind};
ghost use Rattle.f3_actions.specs.Actions.{EatsCondition, IsCondition, IsThen, ends_value, EatsCase, AreCases, IsCaseList, IsDefault, AreValues, IsCase, EatsStepPerhaps, IsSteps, IsCounted, IsWhile, IsControl, IsDo, EatsAssociation, AreAssociations, IsAssociate};

use f3_expressions::expressions::expression;
use f3_places::source::Place;
use f3_reading::lists::{list, perhaps};
use f3_reading::signs::{behind, is_over, name, skip};
use f3_tree::expression::Expression;
use f3_tree::statement::{Association, CaseValue, Control, Selector};
use f3_words::error::ReadError;
use f3_words::item::{Item, Keyword, Word};
use f3_words::reading::front;
use std::alloc::Global;

/// The expression in parentheses at the front.
#[tactic(auto, unfolding(crate::specs::Actions::EatsCondition))]
pub fn condition(alloc: Global, items: &[Item]) -> Result<(Expression, &[Item]), ReadError>
    ensures { Reads EatsCondition expression_view result items.now }
{
    let rest = skip(Word::Open, items)?;
    let (found, rest) = expression(alloc, rest)?;
    let rest = skip(Word::Close, rest)?;
    Ok((found, rest))
}

/// The expression in parentheses that all of the tokens are.
#[tactic(auto, unfolding(crate::specs::Actions::IsCondition))]
pub fn whole_condition(alloc: Global, items: &[Item]) -> Result<Expression, ReadError>
    ensures { Finds IsCondition expression_view result items.now }
{
    let (found, rest) = condition(alloc, items)?;
    if is_over(rest) {
        Ok(found)
    } else {
        Err(ReadError::NoForm)
    }
}

/// The condition that THEN follows.
#[tactic(auto, unfolding(crate::specs::Actions::IsThen))]
pub fn then(alloc: Global, items: &[Item]) -> Result<Expression, ReadError>
    ensures { Finds IsThen expression_view result items.now }
{
    let (found, rest) = condition(alloc, items)?;
    let rest = skip(Word::Name(Keyword::Then), rest)?;
    if is_over(rest) {
        Ok(found)
    } else {
        Err(ReadError::NoForm)
    }
}

/// The place of a `:` at the front, and what stands behind it.
#[tactic(auto, unfolding(f3_reading::specs::Parts::EatsWord, f3_reading::specs::Parts::Lacks))]
fn colon_front(items: &[Item]) -> Option<(Place, &[Item])>
    ensures { HasColon result items.now }
{
    match front(items) {
        Some((first, tail)) => match first.word {
            Word::Colon => Some((first.place, tail)),
            _ => None,
        },
        None => None,
    }
}

/// Whether a comma or `)` stands at the front.
fn ends_value(items: &[Item]) -> bool
    ensures { result ≡ starts ends_value items.now }
{
    match front(items) {
        Some((item, _)) => match item.word {
            Word::Comma | Word::Close => true,
            _ => false,
        },
        None => false,
    }
}

/// The value or range of a CASE at the front.
fn case_value(alloc: Global, items: &[Item]) -> Result<(CaseValue, &[Item]), ReadError>
    ensures read { Reads EatsCase case_view result items.now }
    ensures shorter { IfOk result (λ x. length x.1.now < length items.now) }
{
    match colon_front(items) {
        Some((place, tail)) => {
            let (upper, rest) = expression(alloc, tail)?;
            Ok((CaseValue::UpTo(place, upper), rest))
        }
        None => {
            let (lower, rest) = expression(alloc, items)?;
            case_behind(alloc, lower, rest)
        }
    }
}

/// What stands behind the first value of a range, with that value.
#[tactic(auto, unfolding(f3_reading::specs::Parts::Lacks))]
fn case_behind(
    alloc: Global,
    lower: Expression,
    items: &[Item],
) -> Result<(CaseValue, &[Item]), ReadError>
    ensures read { Reads (EatsCaseBehind (expression_view lower)) case_view result items.now }
    ensures shorter { IfOk result (λ x. length x.1.now ≤ length items.now) }
{
    match behind(Word::Colon, items) {
        None => Ok((CaseValue::Value(lower), items)),
        Some(tail) => {
            if ends_value(tail) {
                return Ok((CaseValue::From(lower), tail));
            }
            let (upper, rest) = expression(alloc, tail)?;
            Ok((CaseValue::Range(lower, upper), rest))
        }
    }
}

/// The values and ranges at the front, with commas between them.
fn case_values(alloc: Global, items: &[Item]) -> Result<(Vec<CaseValue>, &[Item]), ReadError>
    ensures read { Reads AreCases (λ v. map case_view v.items) result items.now }
    ensures shorter { IfOk result (λ x. length x.1.now ≤ length items.now) }
{
    list(alloc, items, |tokens| case_value(alloc, tokens))
}

/// The values and ranges in the parentheses that all of the tokens are.
#[tactic(auto, unfolding(crate::specs::Actions::IsCaseList))]
fn enclosed_values(alloc: Global, items: &[Item]) -> Result<Vec<CaseValue>, ReadError>
    ensures { Finds IsCaseList (λ v. map case_view v.items) result items.now }
{
    let rest = skip(Word::Open, items)?;
    let (found, rest) = case_values(alloc, rest)?;
    let rest = skip(Word::Close, rest)?;
    if is_over(rest) {
        Ok(found)
    } else {
        Err(ReadError::NoForm)
    }
}

/// The list of values that all of the tokens are.
#[tactic(auto, unfolding(crate::specs::Actions::AreValues))]
fn value_selector(alloc: Global, items: &[Item]) -> Result<Selector, ReadError>
    ensures { Finds AreValues selector_view result items.now }
{
    Ok(Selector::Values(enclosed_values(alloc, items)?))
}

/// The DEFAULT that all of the tokens are.
#[tactic(auto, unfolding(crate::specs::Actions::IsDefault))]
fn default_selector(items: &[Item]) -> Result<Selector, ReadError>
    ensures { Finds IsDefault selector_view result items.now }
{
    let rest = skip(Word::Name(Keyword::Default), items)?;
    if is_over(rest) {
        Ok(Selector::Default)
    } else {
        Err(ReadError::NoForm)
    }
}

/// What stands behind CASE.
#[tactic(auto, unfolding(crate::specs::Actions::IsCase))]
pub fn selector(alloc: Global, items: &[Item]) -> Result<Selector, ReadError>
    ensures { Finds IsCase selector_view result items.now }
{
    match default_selector(items) {
        Ok(found) => Ok(found),
        Err(ReadError::Memory) => Err(ReadError::Memory),
        Err(ReadError::NoForm) => Ok(value_selector(alloc, items)?),
    }
}

/// The step of a DO at the front, where it is written.
fn step_perhaps(alloc: Global, items: &[Item]) -> Result<(Option<Expression>, &[Item]), ReadError>
    ensures { Reads EatsStepPerhaps (λ e. option_map expression_view e) result items.now }
{
    perhaps(Word::Comma, items, |tokens| expression(alloc, tokens))
}

/// The values of a DO variable, behind its `=`.
#[tactic(auto, unfolding(crate::specs::Actions::IsSteps))]
fn steps(
    alloc: Global,
    items: &[Item],
) -> Result<(Expression, Expression, Option<Expression>), ReadError>
    ensures { Finds IsSteps steps_view result items.now }
{
    let (first, rest) = expression(alloc, items)?;
    let rest = skip(Word::Comma, rest)?;
    let (last, rest) = expression(alloc, rest)?;
    let (step, rest) = step_perhaps(alloc, rest)?;
    if is_over(rest) {
        Ok((first, last, step))
    } else {
        Err(ReadError::NoForm)
    }
}

/// The control with a DO variable that all of the tokens are.
#[tactic(auto, unfolding(crate::specs::Actions::IsCounted))]
fn counted(alloc: Global, items: &[Item]) -> Result<Control, ReadError>
    ensures { Finds IsCounted control_view result items.now }
{
    let (variable, rest) = name(items)?;
    let rest = skip(Word::Equals, rest)?;
    let (first, last, step) = steps(alloc, rest)?;
    Ok(Control::Counted(variable, first, last, step))
}

/// The control with WHILE that all of the tokens are.
#[tactic(auto, unfolding(crate::specs::Actions::IsWhile))]
fn while_control(alloc: Global, items: &[Item]) -> Result<Control, ReadError>
    ensures { Finds IsWhile control_view result items.now }
{
    let rest = skip(Word::Name(Keyword::While), items)?;
    let test = whole_condition(alloc, rest)?;
    Ok(Control::While(test))
}

/// The control that all of the tokens are, if there are any.
#[tactic(auto, unfolding(crate::specs::Actions::IsControl))]
fn some_control(alloc: Global, items: &[Item]) -> Result<Control, ReadError>
    ensures { Finds IsControl control_view result items.now }
{
    match while_control(alloc, items) {
        Ok(found) => Ok(found),
        Err(ReadError::Memory) => Err(ReadError::Memory),
        Err(ReadError::NoForm) => Ok(counted(alloc, items)?),
    }
}

/// What stands behind DO.
#[tactic(auto, unfolding(crate::specs::Actions::IsDo))]
pub fn control(alloc: Global, items: &[Item]) -> Result<Control, ReadError>
    ensures { Finds IsDo control_view result items.now }
{
    if is_over(items) {
        return Ok(Control::Forever);
    }
    Ok(some_control(alloc, items)?)
}

/// The `n => e` at the front.
#[tactic(auto, unfolding(crate::specs::Actions::EatsAssociation))]
fn association(alloc: Global, items: &[Item]) -> Result<(Association, &[Item]), ReadError>
    ensures read { Reads EatsAssociation association_view result items.now }
    ensures shorter { IfOk result (λ x. length x.1.now < length items.now) }
{
    let (name, rest) = name(items)?;
    let rest = skip(Word::Arrow, rest)?;
    let (selector, rest) = expression(alloc, rest)?;
    Ok((Association { name, selector }, rest))
}

/// The associations at the front, with commas between them.
fn all_associations(alloc: Global, items: &[Item]) -> Result<(Vec<Association>, &[Item]), ReadError>
    ensures read { Reads AreAssociations (λ v. map association_view v.items) result items.now }
    ensures shorter { IfOk result (λ x. length x.1.now ≤ length items.now) }
{
    list(alloc, items, |tokens| association(alloc, tokens))
}

/// The associations in the parentheses that all of the tokens are.
#[tactic(auto, unfolding(crate::specs::Actions::IsAssociate))]
pub fn associations(alloc: Global, items: &[Item]) -> Result<Vec<Association>, ReadError>
    ensures { Finds IsAssociate (λ v. map association_view v.items) result items.now }
{
    let rest = skip(Word::Open, items)?;
    let (found, rest) = all_associations(alloc, rest)?;
    let rest = skip(Word::Close, rest)?;
    if is_over(rest) {
        Ok(found)
    } else {
        Err(ReadError::NoForm)
    }
}
