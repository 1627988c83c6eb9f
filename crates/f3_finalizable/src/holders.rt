//! Which types have a component of a type.

ghost use Rattle.std.specs.Prelude.{◌≡◌, ◌+◌, [], None, map, length, replicate, IfOk, OnOk};
ghost use Rattle.f3_kinds.specs.Things.{map_or, at_place_of};
ghost use Rattle.f3_typed_parts.specs.Known.{nature_of};
ghost use Rattle.f3_finalizable.specs.Inner.Holders.{derived_of, part_of, rows_of, hold, hold_all, hold_thing, hold_each};

use f3_kinds::things::{Component, Thing};
use f3_kinds::types::DataType;
use indexmap::IndexMap;
use std::alloc::{AllocError, Global};

/// The entity of a derived type.
fn derived(data_type: Option<DataType>) -> Option<usize>
    ensures { result ≡ derived_of data_type }
{
    match data_type {
        Some(DataType::Derived(entity)) => Some(entity),
        Some(DataType::Integer(_)) => None,
        Some(DataType::Logical) => None,
        None => None,
    }
}

/// The derived type of the component at a place.
fn part_at(components: &IndexMap<usize, Component>, place: usize) -> Option<usize>
    ensures { result ≡ map_or None part_of (at_place_of components.now.entries place) }
{
    match components.get_index(place) {
        Some((_, component)) => derived(component.object.data_type),
        None => None,
    }
}

/// Adds a type that has a component of a type.
fn add_holder(
    holders: &mut Vec<Vec<usize>>,
    part: Option<usize>,
    holder: usize,
) -> Result<(), AllocError>
    ensures { OnOk result (rows_of holders.new.items ≡ hold (rows_of holders.old.items) holder part) }
{
    if let Some(part) = part {
        if part < holders.len() {
            holders[part].push(holder)?;
        }
    }
    Ok(())
}

/// Adds a type with these components.
fn add_holders(
    holders: &mut Vec<Vec<usize>>,
    components: &IndexMap<usize, Component>,
    holder: usize,
) -> Result<(), AllocError>
    ensures { OnOk result (rows_of holders.new.items ≡ hold_all (rows_of holders.old.items) holder components.now.entries) }
{
    for place in 0..components.len() {
        let part = part_at(components, place);
        add_holder(holders, part, holder)?;
    }
    Ok(())
}

/// Adds an entity where it is a type.
fn add_thing(holders: &mut Vec<Vec<usize>>, thing: &Thing, entity: usize) -> Result<(), AllocError>
    ensures { OnOk result (rows_of holders.new.items ≡ hold_thing (rows_of holders.old.items) entity (nature_of thing.now)) }
{
    match thing {
        Thing::Type(table) => add_holders(holders, &table.components, entity),
        Thing::Constant(_) => Ok(()),
        Thing::Variable(_) => Ok(()),
        Thing::Subroutine(_) => Ok(()),
        Thing::Function(_, _) => Ok(()),
    }
}

/// So many empty lists.
fn empty_lists(alloc: Global, count: usize) -> Result<Vec<Vec<usize>>, AllocError>
    ensures { IfOk result (λ g. rows_of g.items ≡ replicate count []) }
{
    let mut lists = Vec::new(alloc);
    for _each in 0..count {
        lists.push(Vec::new(alloc))?;
    }
    Ok(lists)
}

/// For each entity the types that have a component of it.
pub fn holders(alloc: Global, things: &[Thing]) -> Result<Vec<Vec<usize>>, AllocError>
    ensures { IfOk result (λ g. rows_of g.items ≡ hold_each (replicate (length things.now) []) 0 (map nature_of things.now)) }
{
    let mut holders = empty_lists(alloc, things.len())?;
    for entity in 0..things.len() {
        let thing = &things[entity];
        add_thing(&mut holders, thing, entity)?;
    }
    Ok(holders)
}
