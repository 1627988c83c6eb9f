//! T5: sizes of declared names (5.1.2.5, own rules).

ghost use Rattle.std.specs.Prelude.{◌≡◌, ◌&&◌, ◌||◌, ◌∷◌, [], ℕ, Some, None, Option, map, option_map, slice_get};
ghost use Rattle.std.specs.List.{list_all};
ghost use Rattle.f3_tree.specs.Expressions.{expression_view};
ghost use Rattle.f3_tree.specs.Declarations.{bounds_view, shape_view};
ghost use Rattle.f3_tree.specs.declared.expression.IntegerKind.TheVariants.{Four};
ghost use Rattle.f3_kinds.specs.declared.types.Scalar.TheVariants.{Number};
ghost use Rattle.f3_kinds.specs.Things.{map_or};
ghost use Rattle.f3_kinds.specs.Values.{value_of};
ghost use Rattle.f3_typed_parts.specs.Known.{context_of};
ghost use Rattle.f3_typed_parts.specs.Noted.{noted};
ghost use Rattle.f3_type_rules.specs.Names.{dimensions};
ghost use Rattle.f3_type_rules.specs.Walks.{Known as Grown};
ghost use Rattle.f3_type_rules.specs.Shapes.{bounds_extent, product, elements, at_most, are_dimensions_small, type_cells, cells_of};
ghost use Rattle.f3_kinds.specs.Rows.{at_name, unless};
ghost use Rattle.f3_rules.specs.declared.rule.Rule.TheVariants.{T5};
ghost use Rattle.f3_extents.specs.Cells.{HasCells};
ghost use Rattle.f3_extents.specs.Counts.{counted};
ghost use Rattle.f3_extents.specs.Extents.{extents_of};
ghost use Rattle.std.specs.Prelude.{pos};

use crate::counts::{at_most, extent, multiplied};
use f3_declared::bools::{both, either};
use f3_declared::names::dimensions as rank;
use f3_kinds::types::{DataType, Object, Scalar};
use f3_rules::breaks::Break;
use f3_rules::rule::Rule;
use f3_tree::declaration::Shape;
use f3_tree::expression::{Expression, IntegerKind, Name};
use f3_typed_parts::known::{Known, Position};
use f3_typed_parts::noted::{at_name, unless};
use f3_values::values::value;

/// What a shape says of the object that has it.
#[derive(Clone, Copy)]
pub struct Extents {
    /// How many elements it has, where that is known; one that has no shape has one.
    pub elements: Option<u64>,
    /// Whether no dimension has too many subscripts, as far as its bounds are known.
    pub are_small: bool,
}

fn lower_value(known: &Known<'_>, at: Position, e: &Option<Expression>) -> Option<Scalar>
    ensures { result ≡ map_or (Some (Number Four (pos 1))) (value_of (context_of known.now at)) (option_map expression_view e.now) }
{
    match e {
        Some(e) => value(known, at, e),
        None => Some(Scalar::Number(IntegerKind::Four, 1)),
    }
}

fn bounds_extent(
    known: &Known<'_>,
    at: Position,
    bounds: &(Option<Expression>, Expression),
) -> Option<u64>
    ensures { result ≡ counted (bounds_extent (context_of known.now at) (bounds_view bounds.now)) }
{
    let lower = lower_value(known, at, &bounds.0);
    let upper = value(known, at, &bounds.1);
    extent(lower, upper)
}

fn product(
    known: &Known<'_>,
    at: Position,
    list: &[(Option<Expression>, Expression)],
) -> Option<u64>
    ensures { result ≡ counted (product (Some 1) (map (λ b. bounds_extent (context_of known.now at) (bounds_view b)) list.now)) }
{
    let mut elements = Some(1);
    for bounds in list {
        elements = multiplied(elements, bounds_extent(known, at, bounds));
    }
    elements
}

fn is_small(known: &Known<'_>, at: Position, bounds: &(Option<Expression>, Expression)) -> bool
    ensures { result ≡ at_most 9223372036854775807 (bounds_extent (context_of known.now at) (bounds_view bounds.now)) }
{
    at_most(9223372036854775807, bounds_extent(known, at, bounds))
}

fn are_small(known: &Known<'_>, at: Position, list: &[(Option<Expression>, Expression)]) -> bool
    ensures { result ≡ list_all (λ b. at_most 9223372036854775807 (bounds_extent (context_of known.now at) (bounds_view b))) list.now }
{
    list.iter().all(|bounds| is_small(known, at, bounds))
}

fn shape_elements(known: &Known<'_>, at: Position, shape: &Shape) -> Option<u64>
    ensures { result ≡ counted (elements (context_of known.now at) (Some (shape_view shape.now))) }
{
    match shape {
        Shape::Explicit(list) => product(known, at, list),
        Shape::Deferred(_) => None,
    }
}

fn shape_small(known: &Known<'_>, at: Position, shape: &Shape) -> bool
    ensures { result ≡ are_dimensions_small (context_of known.now at) (Some (shape_view shape.now)) }
{
    match shape {
        Shape::Explicit(list) => are_small(known, at, list),
        Shape::Deferred(_) => true,
    }
}

/// What a shape says where it stands.
pub fn shape_extents(known: &Known<'_>, at: Position, shape: Option<&Shape>) -> Extents
    ensures { result ≡ extents_of (context_of known.now at) (option_map (λ s. shape_view s.now) shape.entry) }
{
    match shape {
        Some(shape) => Extents {
            elements: shape_elements(known, at, shape),
            are_small: shape_small(known, at, shape),
        },
        None => Extents {
            elements: Some(1),
            are_small: true,
        },
    }
}

fn cells_at(cells: &[Option<u64>], number: usize) -> Option<u64>
    ensures { result ≡ map_or None (λ n. n) (slice_get cells.now number) }
{
    match cells.get(number) {
        Some(count) => *count,
        None => None,
    }
}

fn type_cells(cells: &[Option<u64>], data_type: Option<DataType>) -> Option<u64>
    ensures { (k : Grown) → HasCells cells.now k → result ≡ counted (type_cells k data_type) }
{
    match data_type {
        Some(DataType::Derived(number)) => cells_at(cells, number),
        Some(DataType::Integer(_)) => Some(1),
        Some(DataType::Logical) => Some(1),
        None => None,
    }
}

/// How many cells an object or a component of so many elements has, by the cells of the types so far; an allocatable has one
/// (own rule).
pub fn cells_of(cells: &[Option<u64>], object: Object, elements: Option<u64>) -> Option<u64>
    ensures { (k : Grown) → (n : Option ℕ) → HasCells cells.now k → elements ≡ counted n → result ≡ counted (cells_of k object n) }
{
    if object.is_allocatable {
        return Some(1);
    }
    let each = type_cells(cells, object.data_type);
    multiplied(each, elements)
}

fn is_rank_small(shape: Option<&Shape>) -> bool
    ensures { result ≡ at_most 7 (option_map dimensions (option_map (λ s. shape_view s.now) shape.entry)) }
{
    match shape {
        Some(shape) => rank(shape) <= 7,
        None => true,
    }
}

/// Notes a declared name of a rank above 7, or, unless it is a dummy, of too many cells or subscripts (T5).
pub fn size(
    first: &mut Option<Break>,
    dummy: bool,
    shape: Option<&Shape>,
    are_small: bool,
    cells: Option<u64>,
    name: Name,
)
    ensures { (n : Option ℕ) → cells ≡ counted n → first.new ≡ noted first.old (unless (at_most 7 (option_map dimensions (option_map (λ s. shape_view s.now) shape.entry)) && (dummy || (at_most 16777216 n && are_small))) (at_name 5 T5 name)) }
{
    let small = both(at_most(16777216, cells), are_small);
    let right = both(is_rank_small(shape), either(dummy, small));
    unless(first, right, at_name(5, Rule::T5, name));
}
