//! Initial values of declared names (5.1, 7.4.1.3).

ghost use Rattle.std.specs.Prelude.{◌≡◌, ◌∷◌, [], map, option_map, IfOk};
ghost use Rattle.f3_tree.specs.Expressions.{expression_view};
ghost use Rattle.f3_kinds.specs.Values.{converted, value_of};
ghost use Rattle.f3_typed_parts.specs.Known.{context_of};
ghost use Rattle.f3_elaboration.specs.Declarations.{constant_of, initial, initial_values};

use f3_kinds::types::{DataType, Scalar};
use f3_program::declarations::Constant;
use f3_tree::expression::Expression;
use f3_typed_parts::known::{Known, Position};
use f3_values::scalars::converted;
use f3_values::values::value;
use std::alloc::{AllocError, Global};

fn constant_of(value: Option<Scalar>) -> Constant
    ensures { result ≡ constant_of value }
{
    match value {
        Some(Scalar::Number(_, z)) => Constant::Number(z),
        Some(Scalar::Truth(truth)) => Constant::Truth(truth),
        None => Constant::Number(0),
    }
}

fn constant(known: &Known<'_>, at: Position, data_type: DataType, e: &Expression) -> Constant
    ensures { result ≡ constant_of (converted data_type (value_of (context_of known.now at) (expression_view e.now))) }
{
    constant_of(converted(data_type, value(known, at, e)))
}

fn constants(
    alloc: Global,
    known: &Known<'_>,
    at: Position,
    data_type: DataType,
    items: &[Expression],
) -> Result<Vec<Constant>, AllocError>
    ensures { IfOk result (λ v. v.items ≡ map (λ e. constant_of (converted data_type (value_of (context_of known.now at) (expression_view e)))) items.now) }
{
    let mut found = Vec::new(alloc);
    for e in items {
        found.push(constant(known, at, data_type, e))?;
    }
    Ok(found)
}

fn one(
    alloc: Global,
    known: &Known<'_>,
    at: Position,
    data_type: DataType,
    e: &Expression,
) -> Result<Vec<Constant>, AllocError>
    ensures { IfOk result (λ v. v.items ≡ constant_of (converted data_type (value_of (context_of known.now at) (expression_view e.now))) ∷ []) }
{
    let mut found = Vec::new(alloc);
    found.push(constant(known, at, data_type, e))?;
    Ok(found)
}

/// The values of all elements, or one value for each scalar, as ones of a type (7.4.1.3).
fn initial_values(
    alloc: Global,
    known: &Known<'_>,
    at: Position,
    data_type: DataType,
    e: &Expression,
) -> Result<Vec<Constant>, AllocError>
    ensures { IfOk result (λ v. v.items ≡ initial_values (context_of known.now at) data_type (expression_view e.now)) }
{
    match e {
        Expression::Array(_, items) => {
            let found = constants(alloc, known, at, data_type, items)?;
            Ok(found)
        }
        Expression::Integer(_, _) => one(alloc, known, at, data_type, e),
        Expression::Truth(_, _) => one(alloc, known, at, data_type, e),
        Expression::Text(_, _) => one(alloc, known, at, data_type, e),
        Expression::Designator(_) => one(alloc, known, at, data_type, e),
        Expression::Group(_, _) => one(alloc, known, at, data_type, e),
        Expression::Signed(_, _, _) => one(alloc, known, at, data_type, e),
        Expression::Not(_, _) => one(alloc, known, at, data_type, e),
        Expression::Comparison(_, _, _) => one(alloc, known, at, data_type, e),
        Expression::Chain(_, _) => one(alloc, known, at, data_type, e),
    }
}

/// What an object of a type is initialized with; nothing where it has no initializer (5.1).
///
/// # Errors
///
/// Where memory runs out.
pub fn initial(
    alloc: Global,
    known: &Known<'_>,
    at: Position,
    data_type: Option<DataType>,
    given: &Option<Expression>,
) -> Result<Vec<Constant>, AllocError>
    ensures { IfOk result (λ v. v.items ≡ initial (context_of known.now at) data_type (option_map expression_view given.now)) }
{
    match data_type {
        Some(data_type) => match given {
            Some(e) => initial_values(alloc, known, at, data_type, e),
            None => Ok(Vec::new(alloc)),
        },
        None => Ok(Vec::new(alloc)),
    }
}
