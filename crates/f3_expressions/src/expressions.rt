//! Expressions, by the levels of their operators (7.1).

ghost use Rattle.std.specs.Prelude.{◌≤◌, ◌<◌, IfOk, length};
ghost use Rattle.f3_tree.specs.Expressions.{expression_view};
ghost use Rattle.f3_words.specs.Lists.{EatsRun};
ghost use Rattle.f3_words.specs.Reads.{Reads};
ghost use Rattle.f3_expressions.specs.Grammar.{EatsExpression};
ghost use Rattle.f3_expressions.specs.Readings.{EatsUpTo, is_operator, IsOperand};
ghost use Rattle.f3_expressions.specs.Views.{operands_view};

use crate::levels::{
    COMPARED, NEGATED, PRIMARY, SIGNED_TERM, SUM, TERM, WHOLE, operator_front, relation_front,
    sign_front, unsigned_level,
};
use crate::marks::not_front;
use crate::primaries::primary;
use f3_tree::expression::{Expression, Operator};
use f3_words::error::ReadError;
use f3_words::item::Item;
use std::alloc::Global;

/// The expression at the front, up to where nothing goes on with it (7.1). NoForm: none stands there.
pub fn expression(alloc: Global, items: &[Item]) -> Result<(Expression, &[Item]), ReadError>
    ensures read { Reads EatsExpression expression_view result items.now }
    ensures shorter { IfOk result (λ x. length x.1.now < length items.now) }
{
    operation(alloc, WHOLE, items)
}

/// The expression of a level at the front, up to where nothing of that level goes on.
#[cycle(operation)]
pub fn operation(
    alloc: Global,
    level: usize,
    items: &[Item],
) -> Result<(Expression, &[Item]), ReadError>
    ensures read { Reads (EatsUpTo level) expression_view result items.now }
    ensures shorter { IfOk result (λ x. length x.1.now < length items.now) }
{
    if level == PRIMARY {
        return primary(alloc, items);
    }
    if level == SIGNED_TERM {
        return signed_term(alloc, items);
    }
    if level == COMPARED {
        return compared(alloc, items);
    }
    if level == NEGATED {
        return negated(alloc, items);
    }
    let (first, rest) = operation(alloc, level - 1, items)?;
    let (others, rest) = operands(alloc, level - 1, rest)?;
    if others.is_empty() {
        Ok((first, rest))
    } else {
        Ok((Expression::Chain(Box::new(alloc, first)?, others), rest))
    }
}

/// The operators of a level at the front, each with its operand.
#[cycle(operation)]
fn operands(
    alloc: Global,
    level: usize,
    items: &[Item],
) -> Result<(Vec<(Operator, Expression)>, &[Item]), ReadError>
    ensures read { Reads (EatsRun (is_operator level) (IsOperand level)) operands_view result items.now }
    ensures shorter { IfOk result (λ x. length x.1.now ≤ length items.now) }
{
    let mut found = Vec::new(alloc);
    let mut rest = items;
    while let Some((operator, tail)) = operator_front(level, rest) {
        let (operand, after) = operation(alloc, unsigned_level(level), tail)?;
        found.push((operator, operand))?;
        rest = after;
    }
    found.shrink_to_fit();
    Ok((found, rest))
}

/// A term, or a sign and a term.
#[cycle(operation)]
fn signed_term(alloc: Global, items: &[Item]) -> Result<(Expression, &[Item]), ReadError>
    ensures read { Reads (EatsUpTo 3) expression_view result items.now }
    ensures shorter { IfOk result (λ x. length x.1.now < length items.now) }
{
    match sign_front(items) {
        Some((item, sign, tail)) => {
            let (term, rest) = operation(alloc, TERM, tail)?;
            Ok((
                Expression::Signed(item.place, sign, Box::new(alloc, term)?),
                rest,
            ))
        }
        None => operation(alloc, TERM, items),
    }
}

/// A sum, or a comparison of two.
#[cycle(operation)]
fn compared(alloc: Global, items: &[Item]) -> Result<(Expression, &[Item]), ReadError>
    ensures read { Reads (EatsUpTo 5) expression_view result items.now }
    ensures shorter { IfOk result (λ x. length x.1.now < length items.now) }
{
    let (left, rest) = operation(alloc, SUM, items)?;
    match relation_front(rest) {
        Some((relation, tail)) => {
            let (right, after) = operation(alloc, SUM, tail)?;
            match relation_front(after) {
                Some(_) => Err(ReadError::NoForm),
                None => Ok((
                    Expression::Comparison(
                        Box::new(alloc, left)?,
                        relation,
                        Box::new(alloc, right)?,
                    ),
                    after,
                )),
            }
        }
        None => Ok((left, rest)),
    }
}

/// A comparison, or `.NOT.` and a comparison.
#[cycle(operation)]
fn negated(alloc: Global, items: &[Item]) -> Result<(Expression, &[Item]), ReadError>
    ensures read { Reads (EatsUpTo 6) expression_view result items.now }
    ensures shorter { IfOk result (λ x. length x.1.now < length items.now) }
{
    match not_front(items) {
        Some((item, tail)) => {
            let (operand, rest) = operation(alloc, COMPARED, tail)?;
            Ok((Expression::Not(item.place, Box::new(alloc, operand)?), rest))
        }
        None => operation(alloc, COMPARED, items),
    }
}
