//! Instructions that locate objects.

ghost use Rattle.std.specs.Prelude.{◌≡◌, ◌<◌, ◌^◌, MatchResult};
ghost use Rattle.f3_places.specs.declared.source.Place.{Place};
ghost use Rattle.f3_meaning_whole.specs.Value.{Value};
ghost use Rattle.f3_code.specs.declared.instruction.Instruction.TheVariants as i;
ghost use Rattle.f3_data.specs.References.{reference_of};
ghost use Rattle.f3_object_steps.specs.Taken.{PoppedPair};
ghost use Rattle.f3_object_steps.specs.Parts.{on_part};
ghost use Rattle.f3_cells.specs.Follows.{Does, DoesThere};

use crate::naming;
use crate::picking::{selects, selects_of};
use crate::taking::pop_object;
use f3_cells::cell::Cell;
use f3_cells::many::pop_choices;
use f3_cells::scene::Scene;
use f3_cells::stacks::push;
use f3_cells::state::{State, Stop};
use f3_data::copies;
use f3_data::reference::{Maker, Reference};
use f3_program::expression::Name;
use std::alloc::Global;

/// The object that a name means (ISO/IEC 1539-1:2004, 16.4).
#[inline(never)]
pub fn refer(alloc: Global, scene: &Scene<'_>, state: &mut State, name: Name) -> Result<(), Stop>
    requires { state.old.pc < 2 ^ 63 }
    ensures { (v : Value) (place : Place) → DoesThere scene.now (i.Refer name) v place result state.old state.new }
{
    match naming::named(alloc, scene.program, &state.here, &state.store, name) {
        Ok(object) => state.go_on_with(Cell::Object(object)),
        Err(stop) => Err(stop),
    }
}

/// The component of a number (6.1.2).
#[inline(never)]
pub fn component(alloc: Global, scene: &Scene<'_>, state: &mut State, k: usize) -> Result<(), Stop>
    requires { state.old.pc < 2 ^ 63 }
    ensures { (v : Value) (place : Place) → DoesThere scene.now (i.Component k) v place result state.old state.new }
{
    let Some(object) = pop_object(&mut state.stack) else {
        return Err(Stop::Stuck);
    };
    let maker = Maker::Selected(state.here.unit);
    match naming::component(alloc, &scene.program.types, &state.store, object, k, maker) {
        Ok(part) => state.go_on_with(Cell::Object(part)),
        Err(stop) => Err(stop),
    }
}

/// A copy of an object.
fn copy_of(alloc: Global, object: &Reference) -> Result<Reference, Stop>
    ensures { MatchResult result (λ r. reference_of r ≡ reference_of object.now) (λ e. e ≡ Stop.Memory) }
{
    match copies::reference(alloc, object) {
        Ok(copy) => Ok(copy),
        Err(_) => Err(Stop::Memory),
    }
}

/// The component of a number, and the object stays beneath.
#[inline(never)]
pub fn component_of(
    alloc: Global,
    scene: &Scene<'_>,
    state: &mut State,
    k: usize,
) -> Result<(), Stop>
    requires { state.old.pc < 2 ^ 63 }
    ensures { (v : Value) (place : Place) → DoesThere scene.now (i.ComponentOf k) v place result state.old state.new }
{
    let Some(object) = pop_object(&mut state.stack) else {
        return Err(Stop::Stuck);
    };
    let copy = copy_of(alloc, &object)?;
    push(&mut state.stack, Cell::Object(object))?;
    let maker = Maker::Selected(state.here.unit);
    match naming::component(alloc, &scene.program.types, &state.store, copy, k, maker) {
        Ok(part) => state.go_on_with(Cell::Object(part)),
        Err(stop) => Err(stop),
    }
}

/// What an allocatable holds (6.3.1.1).
#[inline(never)]
pub fn contents(alloc: Global, state: &mut State) -> Result<(), Stop>
    requires { state.old.pc < 2 ^ 63 }
    ensures { Does i.Contents result state.old state.new }
{
    let Some(object) = pop_object(&mut state.stack) else {
        return Err(Stop::Stuck);
    };
    match naming::contents(alloc, &state.store, object) {
        Ok(held) => state.go_on_with(Cell::Object(held)),
        Err(stop) => Err(stop),
    }
}

/// Elements by so many subscripts, after what an allocatable holds where the flag is set (6.2.2).
#[inline(never)]
pub fn select(alloc: Global, state: &mut State, is_opened: bool, count: usize) -> Result<(), Stop>
    requires { state.old.pc < 2 ^ 63 }
    ensures { Does (i.Select is_opened count) result state.old state.new }
{
    let chosen = match pop_choices(alloc, &mut state.stack, count) {
        Ok(chosen) => chosen,
        Err(stop) => return Err(stop),
    };
    let Some(object) = pop_object(&mut state.stack) else {
        return Err(Stop::Stuck);
    };
    match selects(alloc, &state.store, object, is_opened, &chosen) {
        Ok(part) => state.go_on_with(Cell::Object(part)),
        Err(stop) => Err(stop),
    }
}

/// The object on top and the one beneath, which are taken.
fn pop_part(stack: &mut Vec<Cell>) -> Option<(Reference, Reference)>
    ensures { PoppedPair reference_of reference_of on_part result stack.old.items stack.new.items }
{
    let Some(part) = pop_object(stack) else {
        return None;
    };
    let Some(object) = pop_object(stack) else {
        drop(part);
        return None;
    };
    Some((part, object))
}

/// Elements of the component of a number, also where this is one of each element of an array (6.2.2).
#[inline(never)]
pub fn select_of(
    alloc: Global,
    scene: &Scene<'_>,
    state: &mut State,
    is_opened: bool,
    k: usize,
    count: usize,
) -> Result<(), Stop>
    requires { state.old.pc < 2 ^ 63 }
    ensures { (v : Value) (place : Place) → DoesThere scene.now (i.SelectOf is_opened k count) v place result state.old state.new }
{
    let chosen = match pop_choices(alloc, &mut state.stack, count) {
        Ok(chosen) => chosen,
        Err(stop) => return Err(stop),
    };
    let Some((part, object)) = pop_part(&mut state.stack) else {
        return Err(Stop::Stuck);
    };
    let types = &scene.program.types;
    match selects_of(
        alloc,
        types,
        &state.store,
        object,
        part,
        is_opened,
        k,
        &chosen,
    ) {
        Ok(found) => state.go_on_with(Cell::Object(found)),
        Err(stop) => Err(stop),
    }
}
