//! The dimensions of declared names (5.1.2.5).

ghost use Rattle.std.specs.Prelude.{◌≡◌, Some, map, option_map, IfOk};
ghost use Rattle.f3_tree.specs.Expressions.{expression_view};
ghost use Rattle.f3_tree.specs.Declarations.{bounds_view, shape_view};
ghost use Rattle.f3_kinds.specs.Things.{map_or};
ghost use Rattle.f3_typed_parts.specs.Known.{context_of};
ghost use Rattle.f3_type_rules.specs.Shapes.{bounds_extent};
ghost use Rattle.f3_extents.specs.Counts.{counted};
ghost use Rattle.f3_elaboration.specs.Declarations.{dimension, dimensions, lower_bound, whole_number};

use f3_extents::counts::extent;
use f3_kinds::types::Scalar;
use f3_program::declarations::Dimension;
use f3_tree::declaration::Shape;
use f3_tree::expression::{Expression, IntegerKind};
use f3_typed_parts::known::{Known, Position};
use f3_values::values::value;
use std::alloc::{AllocError, Global};

fn whole_number(value: Option<Scalar>) -> i64
    ensures { result ≡ whole_number value }
{
    match value {
        Some(Scalar::Number(_, z)) => z,
        Some(Scalar::Truth(_)) => 0,
        None => 0,
    }
}

/// A lower bound; 1 where none is written (5.1.2.5).
pub fn lower_bound(known: &Known<'_>, at: Position, e: &Option<Expression>) -> i64
    ensures { result ≡ lower_bound (context_of known.now at) (option_map expression_view e.now) }
{
    match e {
        Some(e) => whole_number(value(known, at, e)),
        None => 1,
    }
}

fn counted_extent(
    known: &Known<'_>,
    at: Position,
    bounds: &(Option<Expression>, Expression),
) -> Option<u64>
    ensures { result ≡ counted (bounds_extent (context_of known.now at) (bounds_view bounds.now)) }
{
    let upper = value(known, at, &bounds.1);
    match &bounds.0 {
        Some(e) => extent(value(known, at, e), upper),
        None => extent(Some(Scalar::Number(IntegerKind::Four, 1)), upper),
    }
}

fn extent_or_none(extent: Option<u64>) -> u64
    ensures { result ≡ map_or 0 (λ n. n) extent }
{
    match extent {
        Some(extent) => extent,
        None => 0,
    }
}

#[tactic(auto, using(crate::proofs::Counted::counted_or_none))]
fn dimension(
    known: &Known<'_>,
    at: Position,
    bounds: &(Option<Expression>, Expression),
) -> Dimension
    ensures { result ≡ dimension (context_of known.now at) (bounds_view bounds.now) }
{
    Dimension {
        lower: lower_bound(known, at, &bounds.0),
        extent: extent_or_none(counted_extent(known, at, bounds)),
    }
}

fn explicit(
    alloc: Global,
    known: &Known<'_>,
    at: Position,
    list: &[(Option<Expression>, Expression)],
) -> Result<Vec<Dimension>, AllocError>
    ensures { IfOk result (λ v. v.items ≡ map (λ b. dimension (context_of known.now at) (bounds_view b)) list.now) }
{
    let mut found = Vec::new(alloc);
    for bounds in list {
        found.push(dimension(known, at, bounds))?;
    }
    Ok(found)
}

fn shape_dimensions(
    alloc: Global,
    known: &Known<'_>,
    at: Position,
    shape: &Shape,
) -> Result<Vec<Dimension>, AllocError>
    ensures { IfOk result (λ v. v.items ≡ dimensions (context_of known.now at) (Some (shape_view shape.now))) }
{
    match shape {
        Shape::Explicit(list) => {
            let found = explicit(alloc, known, at, list)?;
            Ok(found)
        }
        Shape::Deferred(_) => Ok(Vec::new(alloc)),
    }
}

/// The dimensions of an array of explicit shape (5.1.2.5.1).
///
/// # Errors
///
/// Where memory runs out.
pub fn dimensions(
    alloc: Global,
    known: &Known<'_>,
    at: Position,
    shape: Option<&Shape>,
) -> Result<Vec<Dimension>, AllocError>
    ensures within { IfOk result (λ v. v.items ≡ dimensions (context_of known.now at) (option_map (λ s. shape_view s.now) shape.entry)) }
{
    match shape {
        Some(shape) => shape_dimensions(alloc, known, at, shape),
        None => Ok(Vec::new(alloc)),
    }
}
