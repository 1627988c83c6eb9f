//! What operators make of scalars.

ghost use Rattle.std.specs.Prelude.{◌≡◌};
ghost use Rattle.f3_places.specs.declared.source.Place.{Place};
ghost use Rattle.f3_meaning_whole.specs.Value as v;
ghost use Rattle.f3_meaning_whole.specs.Arithmetic.{apply, change_of, constant_value, meets, same_number, same_truth};
ghost use Rattle.f3_arithmetic.specs.Scalars.{base_of, number_ran, scalar_ran};

use crate::numbers::{
    Width, absolute, difference, modulo, negative, power, product, quotient, remainder, sum,
};
use f3_meaning_whole::run_error::RunError;
use f3_program::declarations::Constant;
use f3_program::expression::{BinaryOperator, UnaryOperator};
use f3_program::statement::Range;

/// The number that a scalar is, and 0 for a truth value.
#[inline(always)]
pub fn number_of(scalar: Constant) -> i64
    ensures { result ≡ v.number_of (constant_value scalar) }
{
    match scalar {
        Constant::Number(number) => number,
        Constant::Truth(_) => 0,
    }
}

/// The truth value that a scalar is, and false for a number.
#[inline(always)]
pub fn truth_of(scalar: Constant) -> bool
    ensures { result ≡ v.truth_of (constant_value scalar) }
{
    match scalar {
        Constant::Number(_) => false,
        Constant::Truth(truth) => truth,
    }
}

/// A number, or the error, as a scalar.
#[inline(always)]
fn as_scalar(given: Result<i64, RunError>) -> Result<Constant, RunError>
    ensures { (place : Place) → scalar_ran result place ≡ number_ran given place }
{
    match given {
        Ok(number) => Ok(Constant::Number(number)),
        Err(error) => Err(error),
    }
}

/// Whether two numbers are the same.
#[inline(always)]
fn is_same(x: i64, y: i64) -> bool
    ensures { result ≡ same_number x y }
{
    x <= y && y <= x
}

/// Whether two truth values are the same.
#[inline(always)]
fn is_same_truth(a: bool, b: bool) -> bool
    ensures { result ≡ same_truth a b }
{
    a == b
}

/// What an operator makes of two scalars (ISO/IEC 1539-1:2004, 7.1.4, 7.1.5, 13.7).
///
/// `Overflow` where the result is a number past the range of its kind, `DivisionByZero` (own rules).
#[inline(always)]
pub fn binary(
    operator: BinaryOperator,
    width: Width,
    x: Constant,
    y: Constant,
) -> Result<Constant, RunError>
    ensures { (place : Place) → scalar_ran result place ≡ apply operator (base_of width) (constant_value x) (constant_value y) place }
{
    let (left, right) = (number_of(x), number_of(y));
    match operator {
        BinaryOperator::Add => as_scalar(sum(width, left, right)),
        BinaryOperator::Subtract => as_scalar(difference(width, left, right)),
        BinaryOperator::Multiply => as_scalar(product(width, left, right)),
        BinaryOperator::Divide => as_scalar(quotient(width, left, right)),
        BinaryOperator::Power => as_scalar(power(width, left, right)),
        BinaryOperator::Mod => as_scalar(remainder(width, left, right)),
        BinaryOperator::Modulo => as_scalar(modulo(width, left, right)),
        BinaryOperator::Max => Ok(if left < right { y } else { x }),
        BinaryOperator::Min => Ok(if right < left { y } else { x }),
        BinaryOperator::Equal => Ok(Constant::Truth(is_same(left, right))),
        BinaryOperator::NotEqual => Ok(Constant::Truth(!is_same(left, right))),
        BinaryOperator::Less => Ok(Constant::Truth(left < right)),
        BinaryOperator::LessOrEqual => Ok(Constant::Truth(left <= right)),
        BinaryOperator::Greater => Ok(Constant::Truth(right < left)),
        BinaryOperator::GreaterOrEqual => Ok(Constant::Truth(right <= left)),
        BinaryOperator::And => Ok(Constant::Truth(truth_of(x) && truth_of(y))),
        BinaryOperator::Or => Ok(Constant::Truth(truth_of(x) || truth_of(y))),
        BinaryOperator::Equivalent => {
            Ok(Constant::Truth(is_same_truth(truth_of(x), truth_of(y))))
        }
        BinaryOperator::NotEquivalent => {
            Ok(Constant::Truth(!is_same_truth(truth_of(x), truth_of(y))))
        }
    }
}

/// What an operator makes of one scalar (7.1.4, 7.1.5, 13.7.1).
///
/// `Overflow` where the result is a number past the range of its kind (own rule).
#[inline(always)]
pub fn unary(operator: UnaryOperator, width: Width, x: Constant) -> Result<Constant, RunError>
    ensures { (place : Place) → scalar_ran result place ≡ change_of operator (base_of width) (constant_value x) place }
{
    match operator {
        UnaryOperator::Negate => as_scalar(negative(width, number_of(x))),
        UnaryOperator::Absolute => as_scalar(absolute(width, number_of(x))),
        UnaryOperator::Not => Ok(Constant::Truth(!truth_of(x))),
    }
}

/// Whether a scalar meets a range of a CASE (8.1.3.1).
pub fn meets(range: Range, x: Constant) -> bool
    ensures { result ≡ meets range (constant_value x) }
{
    match range {
        Range::One(Constant::Number(number)) => is_same(number, number_of(x)),
        Range::One(Constant::Truth(truth)) => is_same_truth(truth, truth_of(x)),
        Range::From(lower) => lower <= number_of(x),
        Range::To(upper) => number_of(x) <= upper,
        Range::Between(lower, upper) => lower <= number_of(x) && number_of(x) <= upper,
    }
}
