//! T2: initializers (5.1, 7.1.7).

ghost use Rattle.std.specs.Prelude.{◌≡◌, ◌&&◌, ◌<◌, ◌-◌, ◌^◌, ℕ, true, false, nat_eq, [], OnOk, Option, length, map, option_map};
ghost use Rattle.std.specs.List.{list_all};
ghost use Rattle.f3_tree.specs.Expressions.{expression_view, trees_of};
ghost use Rattle.f3_kinds.specs.Things.{map_or};
ghost use Rattle.f3_kinds.specs.Values.{value_of, converted, has_value};
ghost use Rattle.f3_typed_parts.specs.Known.{context_of};
ghost use Rattle.f3_typed_parts.specs.Noted.{noted};
ghost use Rattle.f3_type_rules.specs.Constants.{constant_rows};
ghost use Rattle.f3_type_rules.specs.Declarations.{given_value};
ghost use Rattle.f3_type_rules.specs.Shapes.{all_converted, count, initial_fits, initial_right};
ghost use Rattle.f3_extents.specs.Counts.{counted};

use crate::bounds::constant;
use f3_declared::bools::both;
use f3_kinds::types::{DataType, Object, Scalar};
use f3_rules::breaks::Break;
use f3_tree::expression::Expression;
use f3_typed_parts::known::{Known, Position};
use f3_values::scalars::{converted, has_value};
use f3_values::values::value;
use std::alloc::{AllocError, Global};

fn is_convertible(known: &Known<'_>, at: Position, data_type: DataType, e: &Expression) -> bool
    ensures { result ≡ has_value (converted data_type (value_of (context_of known.now at) (expression_view e.now))) }
{
    has_value(converted(data_type, value(known, at, e)))
}

fn all_convertible(
    known: &Known<'_>,
    at: Position,
    data_type: DataType,
    items: &[Expression],
) -> bool
    ensures { result ≡ list_all (λ e. has_value (converted data_type (value_of (context_of known.now at) (expression_view e)))) items.now }
{
    items
        .iter()
        .all(|e| is_convertible(known, at, data_type, e))
}

/// Whether so many items are as many as elements that are counted.
#[tactic(auto, using(crate::proofs::Initials::same_count))]
fn is_count(items: usize, elements: Option<u64>) -> bool
    requires { items < 2 ^ 64 - 1 }
    ensures { (n : Option ℕ) → elements ≡ counted n → result ≡ map_or true (nat_eq items) n }
{
    match elements {
        Some(elements) => items as u64 == elements,
        None => true,
    }
}

fn array_fits(
    known: &Known<'_>,
    at: Position,
    data_type: DataType,
    rank: usize,
    elements: Option<u64>,
    items: &Vec<Expression>,
) -> bool
    ensures { (n : Option ℕ) → elements ≡ counted n → result ≡ nat_eq rank 1 && all_converted (context_of known.now at) data_type (trees_of (map expression_view items.now.items)) && map_or true (nat_eq (count (trees_of (map expression_view items.now.items)))) n }
{
    let right = all_convertible(known, at, data_type, items);
    let counted = is_count(items.len(), elements);
    both(both(rank == 1, right), counted)
}

/// Whether an initializer is right: a scalar of the type, or for an array of rank 1 an array constructor of as many.
fn initial_fits(
    known: &Known<'_>,
    at: Position,
    data_type: DataType,
    rank: usize,
    elements: Option<u64>,
    e: &Expression,
) -> bool
    ensures { (n : Option ℕ) → elements ≡ counted n → result ≡ initial_fits (context_of known.now at) data_type rank n (expression_view e.now) }
{
    match e {
        Expression::Array(_, items) => array_fits(known, at, data_type, rank, elements, items),
        Expression::Integer(_, _) => is_convertible(known, at, data_type, e),
        Expression::Truth(_, _) => is_convertible(known, at, data_type, e),
        Expression::Text(_, _) => is_convertible(known, at, data_type, e),
        Expression::Designator(_) => is_convertible(known, at, data_type, e),
        Expression::Group(_, _) => is_convertible(known, at, data_type, e),
        Expression::Signed(_, _, _) => is_convertible(known, at, data_type, e),
        Expression::Not(_, _) => is_convertible(known, at, data_type, e),
        Expression::Comparison(_, _, _) => is_convertible(known, at, data_type, e),
        Expression::Chain(_, _) => is_convertible(known, at, data_type, e),
    }
}

/// Whether an initializer is the one that an object of a type and a rank needs; of one of derived type, or of none, nothing is said.
pub fn initial_right(
    known: &Known<'_>,
    at: Position,
    object: Object,
    elements: Option<u64>,
    e: &Expression,
) -> bool
    ensures { (n : Option ℕ) → elements ≡ counted n → result ≡ initial_right (context_of known.now at) object.data_type object.rank n (expression_view e.now) }
{
    match object.data_type {
        None => true,
        Some(DataType::Derived(_)) => true,
        Some(DataType::Integer(kind)) => initial_fits(
            known,
            at,
            DataType::Integer(kind),
            object.rank,
            elements,
            e,
        ),
        Some(DataType::Logical) => {
            initial_fits(known, at, DataType::Logical, object.rank, elements, e)
        }
    }
}

/// The value of a named constant by its initializer (5.1.2.10).
pub fn given_value(
    known: &Known<'_>,
    at: Position,
    is_scalar_constant: bool,
    data_type: Option<DataType>,
    initial: &Option<Expression>,
) -> Option<Scalar>
    ensures { result ≡ given_value (context_of known.now at) is_scalar_constant data_type (option_map expression_view initial.now) }
{
    if !is_scalar_constant {
        return None;
    }
    match data_type {
        Some(data_type) => match initial {
            Some(e) => converted(data_type, value(known, at, e)),
            None => None,
        },
        None => None,
    }
}

/// Notes what is wrong with the initializer of a declared name (T2).
///
/// # Errors
///
/// Where memory runs out.
pub fn initial(
    alloc: Global,
    known: &Known<'_>,
    at: Position,
    first: &mut Option<Break>,
    object: Object,
    elements: Option<u64>,
    given: &Option<Expression>,
) -> Result<(), AllocError>
    ensures { OnOk result ((n : Option ℕ) → elements ≡ counted n → first.new ≡ noted first.old (map_or [] (λ e. constant_rows 5 (context_of known.now at) (initial_right (context_of known.now at) object.data_type object.rank n e) e) (option_map expression_view given.now))) }
{
    match given {
        Some(e) => {
            let right = initial_right(known, at, object, elements, e);
            constant(alloc, known, at, first, 5, right, e)?;
            Ok(())
        }
        None => Ok(()),
    }
}
