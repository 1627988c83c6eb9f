//! The types that are finalizable, by a worklist.

ghost use Rattle.std.specs.Prelude.{◌≡◌, [], map, length, replicate, false, if◌then◌else◌, IfOk, OnOk};
ghost use Rattle.std.specs.List.{slice_index_or};
ghost use Rattle.f3_typed_parts.specs.Known.{nature_of};
ghost use Rattle.f3_type_rules.specs.Natures.{rounds};
ghost use Rattle.f3_finalizable.specs.Inner.Holders.{rows_of};
ghost use Rattle.f3_finalizable.specs.Inner.Marks.{is_new, has_final, see, see_all, see_final, see_finals};

use crate::holders::holders;
use f3_kinds::things::Thing;
use std::alloc::{AllocError, Global};

/// Whether an entity is there and not marked.
fn is_new(seen: &[bool], entity: usize) -> bool
    ensures { result ≡ is_new seen.now entity }
{
    match seen.get(entity) {
        Some(mark) => !*mark,
        None => false,
    }
}

/// Marks an entity, and notes it where it was not marked.
fn see(entity: usize, seen: &mut Vec<bool>, todo: &mut Vec<usize>) -> Result<(), AllocError>
    ensures { OnOk result ((seen.new.items, todo.new.items) ≡ see (seen.old.items, todo.old.items) entity) }
{
    if is_new(seen, entity) {
        seen[entity] = true;
        todo.push(entity)?;
    }
    Ok(())
}

/// Marks entities, and notes those that were not marked.
fn see_all(list: &[usize], seen: &mut Vec<bool>, todo: &mut Vec<usize>) -> Result<(), AllocError>
    ensures { OnOk result ((seen.new.items, todo.new.items) ≡ see_all (seen.old.items, todo.old.items) list.now) }
{
    for entity in list {
        see(*entity, seen, todo)?;
    }
    Ok(())
}

/// Marks the types that have a component of an entity.
fn see_holders(
    holders: &[Vec<usize>],
    entity: usize,
    seen: &mut Vec<bool>,
    todo: &mut Vec<usize>,
) -> Result<(), AllocError>
    ensures { OnOk result ((seen.new.items, todo.new.items) ≡ see_all (seen.old.items, todo.old.items) (slice_index_or (rows_of holders.now) entity [])) }
{
    match holders.get(entity) {
        Some(list) => see_all(list, seen, todo),
        None => Ok(()),
    }
}

/// Whether an entity is a type that is told to have a final subroutine.
fn has_final(thing: &Thing) -> bool
    ensures { result ≡ has_final (nature_of thing.now) }
{
    match thing {
        Thing::Type(table) => table.is_finalizable,
        Thing::Constant(_) => false,
        Thing::Variable(_) => false,
        Thing::Subroutine(_) => false,
        Thing::Function(_, _) => false,
    }
}

/// Marks an entity where it has a final subroutine.
fn see_final(
    thing: &Thing,
    entity: usize,
    seen: &mut Vec<bool>,
    todo: &mut Vec<usize>,
) -> Result<(), AllocError>
    ensures { OnOk result ((seen.new.items, todo.new.items) ≡ see_final (seen.old.items, todo.old.items) entity (nature_of thing.now)) }
{
    if has_final(thing) {
        return see(entity, seen, todo);
    }
    Ok(())
}

/// Marks the types that have a final subroutine.
fn see_finals(
    things: &[Thing],
    seen: &mut Vec<bool>,
    todo: &mut Vec<usize>,
) -> Result<(), AllocError>
    ensures { OnOk result ((seen.new.items, todo.new.items) ≡ see_finals (seen.old.items, todo.old.items) 0 (map nature_of things.now)) }
{
    for entity in 0..things.len() {
        let thing = &things[entity];
        see_final(thing, entity, seen, todo)?;
    }
    Ok(())
}

/// So many marks that are not set.
fn unmarked(alloc: Global, count: usize) -> Result<Vec<bool>, AllocError>
    ensures { IfOk result (λ m. m.items ≡ replicate count false) }
{
    let mut marks = Vec::new(alloc);
    for _each in 0..count {
        marks.push(false)?;
    }
    Ok(marks)
}

/// Of each entity whether it is a finalizable type.
pub fn marks(alloc: Global, things: &[Thing]) -> Result<Vec<bool>, AllocError>
    ensures { IfOk result (λ m. m.items ≡ rounds (map nature_of things.now) (length things.now) []) }
{
    let holders = holders(alloc, things)?;
    let mut seen = unmarked(alloc, things.len())?;
    let mut todo = Vec::new(alloc);
    see_finals(things, &mut seen, &mut todo)?;
    while let Some(entity) = todo.pop() {
        see_holders(&holders, entity, &mut seen, &mut todo)?;
    }
    Ok(seen)
}
