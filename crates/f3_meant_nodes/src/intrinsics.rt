//! References to intrinsic functions (13.7).

ghost use Rattle.std.specs.Prelude.{◌≡◌, ◌∷◌, [], map, option_map, IfOk};
ghost use Rattle.f3_elaboration.specs.Expressions.{asked, intrinsic_value, nested};
ghost use Rattle.f3_elaboration.specs.Nodes as n;
ghost use Rattle.f3_elaboration.specs.Views.{expression_view};
ghost use Rattle.f3_kinds.specs.declared.things.Intrinsic.TheVariants as intrinsic;
ghost use Rattle.f3_meant_nodes.specs.Inner.Values.{bound_of_two, nested_of, operation_of_two, two_of};

use crate::lists::split;
use crate::values::no_value;
use f3_expression_parts::arguments::asked;
use f3_expression_parts::selections::itself;
use f3_kinds::things::Intrinsic;
use f3_program::declarations::Base;
use f3_program::expression::{BinaryOperator, Expression, Query, UnaryOperator};
use std::alloc::{AllocError, Global};

fn unary(
    alloc: Global,
    operator: UnaryOperator,
    of: Base,
    x: Expression,
) -> Result<Expression, AllocError>
    ensures { IfOk result (λ y. expression_view y ≡ n.unary operator of (expression_view x)) }
{
    Ok(Expression::Unary(operator, of, Box::new(alloc, x)?))
}

fn binary(
    alloc: Global,
    operator: BinaryOperator,
    of: Base,
    x: Expression,
    y: Expression,
) -> Result<Expression, AllocError>
    ensures { IfOk result (λ z. expression_view z ≡ n.binary operator of (expression_view x) (expression_view y)) }
{
    Ok(Expression::Binary(operator, of, Box::new(alloc, x)?, Box::new(alloc, y)?))
}

fn bound(
    alloc: Global,
    query: Query,
    array: Expression,
    dimension: Expression,
) -> Result<Expression, AllocError>
    ensures { IfOk result (λ z. expression_view z ≡ n.bound query (asked (expression_view array)) (expression_view dimension)) }
{
    Ok(Expression::Bound(
        query,
        Box::new(alloc, asked(alloc, array)?)?,
        Box::new(alloc, dimension)?,
    ))
}

/// MAX and MIN of more than two go from the left.
fn nested(
    alloc: Global,
    operator: BinaryOperator,
    of: Base,
    first: Expression,
    others: Vec<Expression>,
) -> Result<Expression, AllocError>
    ensures { IfOk result (λ z. expression_view z ≡ nested operator of (expression_view first) (map expression_view others.items)) }
{
    let mut found = first;
    for x in others {
        found = binary(alloc, operator, of, found, x)?;
    }
    Ok(found)
}

/// MAX and MIN (13.7.69, 13.7.74).
fn nested_of(
    alloc: Global,
    operator: BinaryOperator,
    of: Base,
    values: Vec<Expression>,
) -> Result<Expression, AllocError>
    ensures { IfOk result (λ z. expression_view z ≡ nested_of operator of (map expression_view values.items)) }
{
    match split(values) {
        Some((first, others)) => nested(alloc, operator, of, first, others),
        None => Ok(no_value()),
    }
}

/// ABS (13.7.1).
fn absolute(alloc: Global, of: Base, values: Vec<Expression>) -> Result<Expression, AllocError>
    ensures { IfOk result (λ z. expression_view z ≡ intrinsic_value of intrinsic.Abs (map expression_view values.items)) }
{
    match split(values) {
        Some((x, others)) => {
            if others.is_empty() {
                unary(alloc, UnaryOperator::Absolute, of, x)
            } else {
                Ok(no_value())
            }
        }
        None => Ok(no_value()),
    }
}

/// The two of a list that has no more.
fn two_of(values: Vec<Expression>) -> Option<(Expression, Expression)>
    ensures { option_map (λ p. (expression_view p.0, expression_view p.1)) result ≡ two_of (map expression_view values.items) }
{
    match split(values) {
        Some((x, others)) => match split(others) {
            Some((y, more)) => { if more.is_empty() { Some((x, y)) } else { None } }
            None => None,
        },
        None => None,
    }
}

/// MOD and MODULO (13.7.75, 13.7.76).
fn operation_of_two(
    alloc: Global,
    operator: BinaryOperator,
    of: Base,
    values: Vec<Expression>,
) -> Result<Expression, AllocError>
    ensures { IfOk result (λ z. expression_view z ≡ operation_of_two operator of (map expression_view values.items)) }
{
    match two_of(values) {
        Some((x, y)) => binary(alloc, operator, of, x, y),
        None => Ok(no_value()),
    }
}

/// LBOUND and UBOUND (13.7.60, 13.7.121).
fn bound_of_two(
    alloc: Global,
    query: Query,
    values: Vec<Expression>,
) -> Result<Expression, AllocError>
    ensures { IfOk result (λ z. expression_view z ≡ bound_of_two query (map expression_view values.items)) }
{
    match two_of(values) {
        Some((x, d)) => bound(alloc, query, x, d),
        None => Ok(no_value()),
    }
}

fn size_of_all(alloc: Global, array: Expression) -> Result<Expression, AllocError>
    ensures { IfOk result (λ z. expression_view z ≡ n.size (asked (expression_view array))) }
{
    Ok(Expression::Size(Box::new(alloc, asked(alloc, array)?)?))
}

/// SIZE (13.7.112).
fn size(alloc: Global, of: Base, values: Vec<Expression>) -> Result<Expression, AllocError>
    ensures { IfOk result (λ z. expression_view z ≡ intrinsic_value of intrinsic.Size (map expression_view values.items)) }
{
    match split(values) {
        Some((array, others)) => match split(others) {
            Some((d, more)) => {
                if more.is_empty() {
                    bound(alloc, Query::Extent, array, d)
                } else {
                    Ok(no_value())
                }
            }
            None => size_of_all(alloc, array),
        },
        None => Ok(no_value()),
    }
}

fn is_allocated(alloc: Global, of: Base, object: Expression) -> Result<Expression, AllocError>
    ensures { IfOk result (λ z. expression_view z ≡ intrinsic_value of intrinsic.Allocated (expression_view object ∷ [])) }
{
    match object {
        Expression::Variable(object) => {
            let found = itself(Box::into_inner(object));
            Ok(Expression::Allocated(Box::new(alloc, found)?))
        }
        Expression::Literal(_) => Ok(no_value()),
        Expression::Group(_) => Ok(no_value()),
        Expression::Unary(_, _, _) => Ok(no_value()),
        Expression::Binary(_, _, _, _) => Ok(no_value()),
        Expression::Array(_) => Ok(no_value()),
        Expression::Structure(_, _) => Ok(no_value()),
        Expression::Call(_, _) => Ok(no_value()),
        Expression::Allocated(_) => Ok(no_value()),
        Expression::Size(_) => Ok(no_value()),
        Expression::Bound(_, _, _) => Ok(no_value()),
    }
}

/// ALLOCATED (13.7.9).
fn allocated(alloc: Global, of: Base, values: Vec<Expression>) -> Result<Expression, AllocError>
    ensures { IfOk result (λ z. expression_view z ≡ intrinsic_value of intrinsic.Allocated (map expression_view values.items)) }
{
    match split(values) {
        Some((object, others)) => {
            if others.is_empty() {
                is_allocated(alloc, of, object)
            } else {
                Ok(no_value())
            }
        }
        None => Ok(no_value()),
    }
}

/// A reference to an intrinsic function, with the type of its result.
///
/// # Errors
///
/// Where memory runs out.
#[tactic(auto, using(crate::proofs::Counted::mod_is, crate::proofs::Counted::modulo_is, crate::proofs::Counted::max_is, crate::proofs::Counted::min_is, crate::proofs::Counted::lower_is, crate::proofs::Counted::upper_is))]
pub fn intrinsic_value(
    alloc: Global,
    of: Base,
    intrinsic: Intrinsic,
    values: Vec<Expression>,
) -> Result<Expression, AllocError>
    ensures { IfOk result (λ z. expression_view z ≡ intrinsic_value of intrinsic (map expression_view values.items)) }
{
    match intrinsic {
        Intrinsic::Abs => absolute(alloc, of, values),
        Intrinsic::Mod => operation_of_two(alloc, BinaryOperator::Mod, of, values),
        Intrinsic::Modulo => operation_of_two(alloc, BinaryOperator::Modulo, of, values),
        Intrinsic::Max => nested_of(alloc, BinaryOperator::Max, of, values),
        Intrinsic::Min => nested_of(alloc, BinaryOperator::Min, of, values),
        Intrinsic::Size => size(alloc, of, values),
        Intrinsic::LowerBound => bound_of_two(alloc, Query::Lower, values),
        Intrinsic::UpperBound => bound_of_two(alloc, Query::Upper, values),
        Intrinsic::Allocated => allocated(alloc, of, values),
        Intrinsic::MoveAlloc => Ok(no_value()),
    }
}
