//! Values that are given, and constants.

ghost use Rattle.std.specs.Prelude.{◌≡◌, map, IfOk};
ghost use Rattle.f3_elaboration.specs.Declarations.{constant_of};
ghost use Rattle.f3_elaboration.specs.Expressions.{given_in, given_value, no_value};
ghost use Rattle.f3_elaboration.specs.Views.{expression_view};
ghost use Rattle.f3_expression_parts.specs.Parts.{given_of, part_of};
ghost use Rattle.f3_typed_parts.specs.Known.{context_of};

use f3_expression_parts::given::{Given, Part};
use f3_kinds::types::Scalar;
use f3_program::declarations::Constant;
use f3_program::expression::Expression;
use f3_typed_parts::known::{Known, Position};
use std::alloc::{AllocError, Global};

/// What no accepted program has.
pub fn no_value() -> Expression
    ensures { expression_view result ≡ no_value }
{
    Expression::Literal(Constant::Number(0))
}

fn constant_of(value: Option<Scalar>) -> Constant
    ensures { result ≡ constant_of value }
{
    match value {
        Some(Scalar::Number(_, z)) => Constant::Number(z),
        Some(Scalar::Truth(truth)) => Constant::Truth(truth),
        None => Constant::Number(0),
    }
}

fn value_of(known: &Known<'_>, at: Position, entity: usize) -> Option<Scalar>
    ensures { result ≡ (context_of known.now at).value entity }
{
    match known.values.get(entity) {
        Some(value) => *value,
        None => None,
    }
}

/// The value of a named constant (5.1.2.10).
pub fn constant(known: &Known<'_>, at: Position, entity: usize) -> Constant
    ensures { result ≡ constant_of ((context_of known.now at).value entity) }
{
    constant_of(value_of(known, at, entity))
}

fn given_value(given: Given) -> Expression
    ensures { expression_view result ≡ given_value (given_of given) }
{
    match given {
        Given::Value(_, value) => value,
        Given::Triplet(_, _, _) => no_value(),
    }
}

/// The values that are given.
pub fn given_values(alloc: Global, list: Vec<Given>) -> Result<Vec<Expression>, AllocError>
    ensures { IfOk result (λ v. map expression_view v.items ≡ map given_value (map given_of list.items)) }
{
    let mut found = Vec::new(alloc);
    for given in list {
        found.push(given_value(given))?;
    }
    Ok(found)
}

/// What is given behind a name; nothing where no parentheses stand there.
pub fn given_in(alloc: Global, part: Part) -> Vec<Given>
    ensures { map given_of result.items ≡ given_in (part_of part) }
{
    match part.given {
        Some(given) => given,
        None => Vec::new(alloc),
    }
}
