//! Variables and their parts (6.1).

ghost use Rattle.std.specs.Prelude.{◌≡◌, map, IfOk};
ghost use Rattle.f3_elaboration.specs.Expressions.{along, components_of, number_of, variable_of};
ghost use Rattle.f3_elaboration.specs.Views.{designator_view};
ghost use Rattle.f3_expression_parts.specs.Parts.{part_of};
ghost use Rattle.f3_kinds.specs.Things.{component_of};
ghost use Rattle.f3_meant_nodes.specs.Inner.Components.{found_in};
ghost use Rattle.f3_numbers.specs.Surroundings.{surroundings_of};
ghost use Rattle.f3_typed_parts.specs.Known.{context_of};

use f3_expression_parts::given::Part;
use f3_expression_parts::selections::selection;
use f3_kinds::things::{Component, Thing};
use f3_kinds::types::{DataType, Object};
use f3_numbers::surroundings::Surroundings;
use f3_program::expression::{Designator, Name};
use f3_typed_parts::known::{Known, Position};
use indexmap::IndexMap;
use std::alloc::{AllocError, Global};

/// The component of this name, and its number.
fn found_in(components: &IndexMap<usize, Component>, symbol: usize) -> Option<(usize, Object)>
    ensures { result ≡ found_in components.now.entries symbol }
{
    match components.get_full(&symbol) {
        Some((number, _, component)) => Some((number, component.object)),
        None => None,
    }
}

/// The component of a type, and its number.
fn component(
    known: &Known<'_>,
    at: Position,
    of: Option<DataType>,
    symbol: usize,
) -> Option<(usize, Object)>
    ensures { result ≡ found_in (components_of (context_of known.now at) of) symbol }
{
    match of {
        Some(DataType::Derived(entity)) => match known.things.get(entity) {
            Some(Thing::Type(table)) => found_in(&table.components, symbol),
            Some(_) => None,
            None => None,
        },
        Some(DataType::Integer(_)) => None,
        Some(DataType::Logical) => None,
        None => None,
    }
}

/// Parts behind what is of an object, each a component of what stands before it.
fn along(
    alloc: Global,
    known: &Known<'_>,
    at: Position,
    before: Designator,
    object: Object,
    parts: Vec<Part>,
) -> Result<Designator, AllocError>
    ensures { IfOk result (λ d. designator_view d ≡ along (context_of known.now at) (designator_view before) object (map part_of parts.items)) }
{
    let mut found = before;
    let mut reached = object;
    for part in parts {
        match component(known, at, reached.data_type, part.name.symbol) {
            Some((number, inner)) => {
                let how = selection(alloc, inner, part.given)?;
                found = Designator::Component(Box::new(alloc, found)?, number, how);
                reached = inner;
            }
            None => return Ok(found),
        }
    }
    Ok(found)
}

/// A variable or a part of one (6.1).
///
/// # Errors
///
/// Where memory runs out.
pub fn variable_of(
    alloc: Global,
    from: Surroundings<'_>,
    entity: usize,
    object: Object,
    part: Part,
    others: Vec<Part>,
) -> Result<Designator, AllocError>
    ensures { IfOk result (λ d. designator_view d ≡ variable_of (surroundings_of from.entry) entity object (part_of part) (map part_of others.items)) }
{
    let how = selection(alloc, object, part.given)?;
    let name = Designator::Name(from.numbers.object(entity), how);
    along(alloc, from.known, from.at, name, object, others)
}
