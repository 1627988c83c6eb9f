//! The values of expressions.

ghost use Rattle.std.specs.Prelude.{◌≡◌, ◌-◌, ◌≤◌, map, length, take, drop};
ghost use Rattle.f3_tree.specs.Expressions.{expression_view, parts_list, part_view, rest_of};
ghost use Rattle.f3_scopes.specs.Names.{operand_view};
ghost use Rattle.f3_kinds.specs.Values.{value_at, named_value, value_of, chain_value};
ghost use Rattle.f3_typed_parts.specs.Known.{context_of};
ghost use Rattle.f3_values.specs.Inner.Chains.{run, raised_to};

use crate::operations::{apply, compared, denied, is_power, literal_value, signed_value};
use f3_access::lookup;
use f3_kinds::types::Scalar;
use f3_lookups::lookup::Lookup;
use f3_tree::expression::{Argument, Expression, Name, Operator};
use f3_typed_parts::known::{Known, Position};

/// The value of what a name may be.
fn value_at(known: &Known<'_>, at: Position, found: Lookup) -> Option<Scalar>
    ensures { result ≡ value_at (context_of known.now at) found }
{
    match found {
        Lookup::One(entity) => match known.values.get(entity) {
            Some(value) => *value,
            None => None,
        },
        Lookup::Nothing => None,
        Lookup::Several => None,
    }
}

/// The value of a named constant; none of a designator of another form.
fn named_value(
    known: &Known<'_>,
    at: Position,
    parts: &[(Name, Option<Vec<Argument>>)],
) -> Option<Scalar>
    ensures { result ≡ named_value (context_of known.now at) (parts_list (map part_view parts.now)) }
{
    match parts {
        [part, others @ ..] => match part.1 {
            None => match others {
                [] => value_at(known, at, lookup(known.tables, at.scope, part.0.symbol)),
                [_, ..] => None,
            },
            Some(_) => None,
        },
        [] => None,
    }
}

/// The value of a constant expression (7.1.7); none of what is no constant, past the range of its kind, or by a zero divisor.
#[cycle(values)]
pub fn value(known: &Known<'_>, at: Position, e: &Expression) -> Option<Scalar>
    ensures { result ≡ value_of (context_of known.now at) (expression_view e.now) }
{
    match e {
        Expression::Integer(_, literal) => Some(literal_value(*literal)),
        Expression::Truth(_, truth) => Some(Scalar::Truth(*truth)),
        Expression::Text(_, _) => None,
        Expression::Designator(parts) => named_value(known, at, parts),
        Expression::Group(_, inner) => value(known, at, inner),
        Expression::Array(_, _) => None,
        Expression::Signed(_, sign, inner) => {
            let inner = value(known, at, inner);
            signed_value(*sign, inner)
        }
        Expression::Not(_, inner) => {
            let inner = value(known, at, inner);
            denied(inner)
        }
        Expression::Comparison(left, relation, right) => {
            let left = value(known, at, left);
            let right = value(known, at, right);
            compared(*relation, left, right)
        }
        Expression::Chain(operand, others) => {
            let operand = value(known, at, operand);
            chain(known, at, operand, others)
        }
    }
}

/// A power, where there is an exponent.
fn raised_to(base: Option<Scalar>, exponent: Option<Option<Scalar>>) -> Option<Scalar>
    ensures { result ≡ raised_to base exponent }
{
    match exponent {
        Some(exponent) => apply(Operator::Power, base, exponent),
        None => base,
    }
}

/// The value of a first operand and those from one place up to another, from the left.
#[cycle(values)]
fn run(
    known: &Known<'_>,
    at: Position,
    first: Option<Scalar>,
    others: &[(Operator, Expression)],
    from: usize,
    to: usize,
) -> Option<Scalar>
    requires { to ≤ length others.now }
    ensures { result ≡ run (context_of known.now at) first (take (to - from) (drop from others.now)) }
{
    let mut result = first;
    for place in from..to {
        let next = &others[place];
        let operand = value(known, at, &next.1);
        result = apply(next.0, result, operand);
    }
    result
}

/// The value of a first operand and those behind it: powers go from the right, all else from the left (7.1.1.3).
///
/// Looks at the operators from the back, and computes each run of operands between two powers from its front.
#[cycle(values)]
fn chain(
    known: &Known<'_>,
    at: Position,
    first: Option<Scalar>,
    others: &[(Operator, Expression)],
) -> Option<Scalar>
    ensures { result ≡ chain_value (context_of known.now at) first (rest_of (map operand_view others.now)) }
{
    let mut exponent = None;
    let mut end = others.len();
    for place in (0..others.len()).rev() {
        let next = &others[place];
        if is_power(next.0) {
            let base = value(known, at, &next.1);
            let base = run(known, at, base, others, place + 1, end);
            exponent = Some(raised_to(base, exponent));
            end = place;
        }
    }
    let base = run(known, at, first, others, 0, end);
    raised_to(base, exponent)
}
