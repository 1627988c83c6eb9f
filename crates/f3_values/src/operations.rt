//! What operators make of values.

ghost use Rattle.std.specs.Prelude.{◌≡◌};
ghost use Rattle.f3_kinds.specs.Values.{literal_value, of_numbers, of_truths, apply, related, compared, signed_value, denied, is_power};

use crate::numbers::{difference, negative, power, product, quotient, sum};
use crate::scalars::same_truth;
use f3_kinds::types::Scalar;
use f3_tree::expression::{IntegerKind, IntegerLiteral, Operator, Relation, Sign};
use f3_typed_parts::rows::wider;

/// The value of a literal integer.
pub fn literal_value(literal: IntegerLiteral) -> Scalar
    ensures { result ≡ literal_value literal }
{
    match literal {
        IntegerLiteral::Four(n) => Scalar::Number(IntegerKind::Four, i64::from(n)),
        IntegerLiteral::Eight(n) => Scalar::Number(IntegerKind::Eight, n),
    }
}

fn of_numbers(operator: Operator, kind: IntegerKind, x: i64, y: i64) -> Option<Scalar>
    ensures { result ≡ of_numbers operator kind x y }
{
    match operator {
        Operator::Power => power(kind, x, y),
        Operator::Multiply => product(kind, x, y),
        Operator::Divide => quotient(kind, x, y),
        Operator::Add => sum(kind, x, y),
        Operator::Subtract => difference(kind, x, y),
        Operator::And => None,
        Operator::Or => None,
        Operator::Equivalent => None,
        Operator::NotEquivalent => None,
    }
}

fn of_truths(operator: Operator, a: bool, b: bool) -> Option<Scalar>
    ensures { result ≡ of_truths operator a b }
{
    match operator {
        Operator::Power => None,
        Operator::Multiply => None,
        Operator::Divide => None,
        Operator::Add => None,
        Operator::Subtract => None,
        Operator::And => Some(Scalar::Truth(a && b)),
        Operator::Or => Some(Scalar::Truth(a || b)),
        Operator::Equivalent => Some(Scalar::Truth(same_truth(a, b))),
        Operator::NotEquivalent => Some(Scalar::Truth(!same_truth(a, b))),
    }
}

/// What an operator makes of two values.
pub fn apply(operator: Operator, left: Option<Scalar>, right: Option<Scalar>) -> Option<Scalar>
    ensures { result ≡ apply operator left right }
{
    match (left, right) {
        (Some(Scalar::Number(j, x)), Some(Scalar::Number(k, y))) => of_numbers(
            operator,
            wider(j, k),
            x,
            y,
        ),
        (Some(Scalar::Truth(a)), Some(Scalar::Truth(b))) => of_truths(operator, a, b),
        (_, _) => None,
    }
}

fn related(relation: Relation, x: i64, y: i64) -> bool
    ensures { result ≡ related relation x y }
{
    match relation {
        Relation::Equal => x == y,
        Relation::NotEqual => x != y,
        Relation::Less => x < y,
        Relation::LessOrEqual => x <= y,
        Relation::Greater => y < x,
        Relation::GreaterOrEqual => y <= x,
    }
}

/// The value of a comparison.
pub fn compared(relation: Relation, left: Option<Scalar>, right: Option<Scalar>) -> Option<Scalar>
    ensures { result ≡ compared relation left right }
{
    match (left, right) {
        (Some(Scalar::Number(_, x)), Some(Scalar::Number(_, y))) => {
            Some(Scalar::Truth(related(relation, x, y)))
        }
        (_, _) => None,
    }
}

/// The value behind a sign.
pub fn signed_value(sign: Sign, value: Option<Scalar>) -> Option<Scalar>
    ensures { result ≡ signed_value sign value }
{
    match value {
        Some(Scalar::Number(kind, x)) => match sign {
            Sign::Plus => Some(Scalar::Number(kind, x)),
            Sign::Minus => negative(kind, x),
        },
        Some(Scalar::Truth(_)) => None,
        None => None,
    }
}

/// The value behind `.NOT.`.
pub fn denied(value: Option<Scalar>) -> Option<Scalar>
    ensures { result ≡ denied value }
{
    match value {
        Some(Scalar::Truth(truth)) => Some(Scalar::Truth(!truth)),
        Some(Scalar::Number(_, _)) => None,
        None => None,
    }
}

/// Whether operators of one level are grouped from the right (7.1.1.3).
pub fn is_power(operator: Operator) -> bool
    ensures { result ≡ is_power operator }
{
    match operator {
        Operator::Power => true,
        Operator::Multiply => false,
        Operator::Divide => false,
        Operator::Add => false,
        Operator::Subtract => false,
        Operator::And => false,
        Operator::Or => false,
        Operator::Equivalent => false,
        Operator::NotEquivalent => false,
    }
}
