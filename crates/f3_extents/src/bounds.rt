//! T2: constants, and the bounds of shapes (7.1.7, 5.1.2.5).

ghost use Rattle.std.specs.Prelude.{◌≡◌, [], Some, map, option_map, OnOk};
ghost use Rattle.std.specs.List.{flat_map};
ghost use Rattle.f3_tree.specs.Expressions.{expression_view};
ghost use Rattle.f3_tree.specs.Declarations.{bounds_view, shape_view, attribute_view, placed_view};
ghost use Rattle.f3_kinds.specs.Things.{map_or};
ghost use Rattle.f3_typed_parts.specs.Known.{context_of};
ghost use Rattle.f3_typed_parts.specs.Noted.{noted};
ghost use Rattle.f3_type_rules.specs.Constants.{may_speak, speaks, constant_rows};
ghost use Rattle.f3_type_rules.specs.Shapes.{bound_rows, shape_rows, dimension_rows};
ghost use Rattle.f3_extents.specs.Inner.Bounds.{rows_of_bounds};

use f3_declared::bools::either;
use f3_kinds::said::{Has, Said};
use f3_rules::breaks::Break;
use f3_rules::rule::Rule;
use f3_tree::declaration::{Attribute, AttributeKind, Shape};
use f3_tree::expression::Expression;
use f3_typed_parts::known::{Known, Position};
use f3_typed_parts::noted::{at_place, unless};
use f3_typing::typing::expression;
use f3_values::scalars::is_number;
use f3_values::values::value;
use std::alloc::{AllocError, Global};

fn may_speak(are_parts_typed: bool, has: Option<Has>) -> bool
    ensures { result ≡ may_speak are_parts_typed has }
{
    match has {
        Some(has) => has.data_type.is_some(),
        None => are_parts_typed,
    }
}

/// Whether a rule may speak of a whole expression: it has a type, or breaks a rule itself where all its parts have one.
pub fn speaks(said: &Said) -> bool
    ensures { result ≡ speaks said.now }
{
    may_speak(said.are_parts_typed, said.has)
}

/// Notes what is wrong with an expression that has to be a constant, and that it is not the right one (T2).
///
/// # Errors
///
/// Where memory runs out.
#[tactic(auto, using(f3_typed_parts::proofs::Noting::noted_more))]
pub fn constant(
    alloc: Global,
    known: &Known<'_>,
    at: Position,
    first: &mut Option<Break>,
    phase: u32,
    right: bool,
    e: &Expression,
) -> Result<(), AllocError>
    ensures { OnOk result (first.new ≡ noted first.old (constant_rows phase (context_of known.now at) right (expression_view e.now))) }
{
    let said = expression(alloc, known, at, first, e)?;
    let fine = either(!speaks(&said), right);
    unless(first, fine, at_place(phase, Rule::T2, said.place));
    Ok(())
}

fn bound(
    alloc: Global,
    known: &Known<'_>,
    at: Position,
    first: &mut Option<Break>,
    e: &Expression,
) -> Result<(), AllocError>
    ensures { OnOk result (first.new ≡ noted first.old (bound_rows (context_of known.now at) (expression_view e.now))) }
{
    let right = is_number(value(known, at, e));
    constant(alloc, known, at, first, 5, right, e)
}

#[tactic(auto, using(f3_typed_parts::proofs::Noting::noted_none))]
fn lower(
    alloc: Global,
    known: &Known<'_>,
    at: Position,
    first: &mut Option<Break>,
    e: &Option<Expression>,
) -> Result<(), AllocError>
    ensures { OnOk result (first.new ≡ noted first.old (map_or [] (bound_rows (context_of known.now at)) (option_map expression_view e.now))) }
{
    match e {
        Some(e) => bound(alloc, known, at, first, e),
        None => Ok(()),
    }
}

#[tactic(auto, using(f3_typed_parts::proofs::Noting::noted_more))]
fn both_bounds(
    alloc: Global,
    known: &Known<'_>,
    at: Position,
    first: &mut Option<Break>,
    bounds: &(Option<Expression>, Expression),
) -> Result<(), AllocError>
    ensures { OnOk result (first.new ≡ noted first.old (rows_of_bounds (context_of known.now at) (bounds_view bounds.now))) }
{
    lower(alloc, known, at, first, &bounds.0)?;
    bound(alloc, known, at, first, &bounds.1)
}

fn explicit(
    alloc: Global,
    known: &Known<'_>,
    at: Position,
    first: &mut Option<Break>,
    list: &[(Option<Expression>, Expression)],
) -> Result<(), AllocError>
    ensures { OnOk result (first.new ≡ noted first.old (flat_map (λ b. rows_of_bounds (context_of known.now at) (bounds_view b)) list.now)) }
{
    for bounds in list {
        both_bounds(alloc, known, at, first, bounds)?;
    }
    Ok(())
}

fn deferred(
    alloc: Global,
    known: &Known<'_>,
    at: Position,
    first: &mut Option<Break>,
    list: &[Option<Expression>],
) -> Result<(), AllocError>
    ensures { OnOk result (first.new ≡ noted first.old (flat_map (λ l. map_or [] (bound_rows (context_of known.now at)) (option_map expression_view l)) list.now)) }
{
    for e in list {
        lower(alloc, known, at, first, e)?;
    }
    Ok(())
}

/// Notes what is wrong with the bounds of a shape (T2).
///
/// # Errors
///
/// Where memory runs out.
pub fn shape(
    alloc: Global,
    known: &Known<'_>,
    at: Position,
    first: &mut Option<Break>,
    shape: &Shape,
) -> Result<(), AllocError>
    ensures { OnOk result (first.new ≡ noted first.old (shape_rows (context_of known.now at) (Some (shape_view shape.now)))) }
{
    match shape {
        Shape::Explicit(list) => {
            explicit(alloc, known, at, first, list)?;
            Ok(())
        }
        Shape::Deferred(list) => {
            deferred(alloc, known, at, first, list)?;
            Ok(())
        }
    }
}

/// Notes what is wrong with the bounds of a declared name's own shape (T2).
///
/// # Errors
///
/// Where memory runs out.
#[tactic(auto, using(f3_typed_parts::proofs::Noting::noted_none))]
pub fn own_shape(
    alloc: Global,
    known: &Known<'_>,
    at: Position,
    first: &mut Option<Break>,
    given: &Option<Shape>,
) -> Result<(), AllocError>
    ensures { OnOk result (first.new ≡ noted first.old (shape_rows (context_of known.now at) (option_map shape_view given.now))) }
{
    match given {
        Some(given) => shape(alloc, known, at, first, given),
        None => Ok(()),
    }
}

#[tactic(auto, using(f3_typed_parts::proofs::Noting::noted_none))]
fn dimension(
    alloc: Global,
    known: &Known<'_>,
    at: Position,
    first: &mut Option<Break>,
    kind: &AttributeKind,
) -> Result<(), AllocError>
    ensures { OnOk result (first.new ≡ noted first.old (dimension_rows (context_of known.now at) (attribute_view kind.now))) }
{
    match kind {
        AttributeKind::Dimension(given) => shape(alloc, known, at, first, given),
        AttributeKind::Access(_) => Ok(()),
        AttributeKind::Protected => Ok(()),
        AttributeKind::Parameter => Ok(()),
        AttributeKind::Save => Ok(()),
        AttributeKind::Allocatable => Ok(()),
        AttributeKind::Intent(_) => Ok(()),
    }
}

/// Notes what is wrong with the bounds that DIMENSION gives (T2).
///
/// # Errors
///
/// Where memory runs out.
pub fn dimensions(
    alloc: Global,
    known: &Known<'_>,
    at: Position,
    first: &mut Option<Break>,
    list: &[Attribute],
) -> Result<(), AllocError>
    ensures { OnOk result (first.new ≡ noted first.old (flat_map (λ a. dimension_rows (context_of known.now at) (attribute_view a.kind)) list.now)) }
{
    for attribute in list {
        dimension(alloc, known, at, first, &attribute.kind)?;
    }
    Ok(())
}
