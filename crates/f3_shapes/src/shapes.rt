//! Shapes of arrays.

ghost use Rattle.std.specs.Prelude.{◌<◌, ◌≤◌, length, map, IfOk, Option};
ghost use Rattle.std.specs.Option.{option_map};
ghost use Rattle.f3_tree.specs.Expressions.{expression_view};
ghost use Rattle.f3_tree.specs.Declarations.{bounds_view, shape_view};
ghost use Rattle.f3_words.specs.Reads.{Reads};
ghost use Rattle.f3_shapes.specs.Shapes.{lower_view, EatsBounds, AreBounds, EatsLower, AreLowers, EatsExplicit, EatsDeferred, EatsShapeBehind, EatsShape, EatsShapePerhaps};

use f3_expressions::expressions::expression;
use f3_reading::lists::{list, perhaps};
use f3_reading::signs::{behind, skip};
use f3_tree::declaration::Shape;
use f3_tree::expression::Expression;
use f3_words::error::ReadError;
use f3_words::item::{Item, Word};
use std::alloc::Global;

/// The bounds of one dimension at the front.
#[tactic(auto, unfolding(crate::specs::Shapes::EatsBounds))]
fn bounds(
    alloc: Global,
    items: &[Item],
) -> Result<((Option<Expression>, Expression), &[Item]), ReadError>
    ensures read { Reads EatsBounds bounds_view result items.now }
    ensures shorter { IfOk result (λ x. length x.1.now < length items.now) }
{
    let (first, rest) = expression(alloc, items)?;
    match behind(Word::Colon, rest) {
        None => Ok(((None, first), rest)),
        Some(tail) => {
            let (upper, rest) = expression(alloc, tail)?;
            Ok(((Some(first), upper), rest))
        }
    }
}

/// The bounds at the front, with commas between them.
fn all_bounds(
    alloc: Global,
    items: &[Item],
) -> Result<(Vec<(Option<Expression>, Expression)>, &[Item]), ReadError>
    ensures read { Reads AreBounds (λ v. map bounds_view v.items) result items.now }
    ensures shorter { IfOk result (λ x. length x.1.now < length items.now) }
{
    list(alloc, items, |tokens| bounds(alloc, tokens))
}

/// The `:` at the front, and the lower bound before it.
#[tactic(auto, unfolding(crate::specs::Shapes::EatsLower))]
fn lower(alloc: Global, items: &[Item]) -> Result<(Option<Expression>, &[Item]), ReadError>
    ensures read { Reads EatsLower lower_view result items.now }
    ensures shorter { IfOk result (λ x. length x.1.now < length items.now) }
{
    if let Some(tail) = behind(Word::Colon, items) {
        return Ok((None, tail));
    }
    let (first, rest) = expression(alloc, items)?;
    let rest = skip(Word::Colon, rest)?;
    Ok((Some(first), rest))
}

/// The `:` and lower bounds at the front, with commas between them.
fn lowers(alloc: Global, items: &[Item]) -> Result<(Vec<Option<Expression>>, &[Item]), ReadError>
    ensures read { Reads AreLowers (λ v. map lower_view v.items) result items.now }
    ensures shorter { IfOk result (λ x. length x.1.now < length items.now) }
{
    list(alloc, items, |tokens| lower(alloc, tokens))
}

/// A shape whose upper bounds are all given, behind its open parenthesis.
#[tactic(auto, unfolding(crate::specs::Shapes::EatsExplicit))]
fn explicit(
    alloc: Global,
    items: &[Item],
) -> Result<(Vec<(Option<Expression>, Expression)>, &[Item]), ReadError>
    ensures read { Reads EatsExplicit (λ v. map bounds_view v.items) result items.now }
    ensures shorter { IfOk result (λ x. length x.1.now < length items.now) }
{
    let (found, rest) = all_bounds(alloc, items)?;
    let rest = skip(Word::Close, rest)?;
    Ok((found, rest))
}

/// A shape without upper bounds, behind its open parenthesis.
#[tactic(auto, unfolding(crate::specs::Shapes::EatsDeferred))]
fn deferred(alloc: Global, items: &[Item]) -> Result<(Vec<Option<Expression>>, &[Item]), ReadError>
    ensures read { Reads EatsDeferred (λ v. map lower_view v.items) result items.now }
    ensures shorter { IfOk result (λ x. length x.1.now < length items.now) }
{
    let (found, rest) = lowers(alloc, items)?;
    let rest = skip(Word::Close, rest)?;
    Ok((found, rest))
}

/// The shape behind its open parenthesis.
#[tactic(auto, unfolding(crate::specs::Shapes::EatsShapeBehind))]
fn shape_behind(alloc: Global, items: &[Item]) -> Result<(Shape, &[Item]), ReadError>
    ensures read { Reads EatsShapeBehind shape_view result items.now }
    ensures shorter { IfOk result (λ x. length x.1.now < length items.now) }
{
    match explicit(alloc, items) {
        Ok((found, rest)) => Ok((Shape::Explicit(found), rest)),
        Err(ReadError::Memory) => Err(ReadError::Memory),
        Err(ReadError::NoForm) => {
            let (found, rest) = deferred(alloc, items)?;
            Ok((Shape::Deferred(found), rest))
        }
    }
}

/// The shape at the front, with its parentheses.
#[tactic(auto, unfolding(crate::specs::Shapes::EatsShape))]
pub fn shape(alloc: Global, items: &[Item]) -> Result<(Shape, &[Item]), ReadError>
    ensures read { Reads EatsShape shape_view result items.now }
    ensures shorter { IfOk result (λ x. length x.1.now ≤ length items.now) }
{
    let rest = skip(Word::Open, items)?;
    let (found, rest) = shape_behind(alloc, rest)?;
    Ok((found, rest))
}

/// The shape at the front, where there is one.
pub fn shape_perhaps(alloc: Global, items: &[Item]) -> Result<(Option<Shape>, &[Item]), ReadError>
    ensures read { Reads EatsShapePerhaps (λ s. option_map shape_view s) result items.now }
    ensures shorter { IfOk result (λ x. length x.1.now ≤ length items.now) }
{
    perhaps(Word::Open, items, |tokens| shape_behind(alloc, tokens))
}
