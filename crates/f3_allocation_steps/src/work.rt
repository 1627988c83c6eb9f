//! What is freed, and the parts of objects on which work goes on.

ghost use Rattle.std.specs.Prelude.{◌≡◌, ◌<◌, ◌^◌, IfOk, Some, length, slice_get, None};
ghost use Rattle.f3_places.specs.declared.source.Place.{Place};
ghost use Rattle.f3_meaning_whole.specs.Reference as r;
ghost use Rattle.f3_meaning_whole.specs.Reference.{paths};
ghost use Rattle.f3_meaning_whole.specs.Act.{moved};
ghost use Rattle.f3_data.specs.Stores.{path_of};
ghost use Rattle.f3_data.specs.References.{reference_of};
ghost use Rattle.f3_code.specs.declared.instruction.Instruction.TheVariants as i;
ghost use Rattle.f3_cells.specs.Follows.{Does, DoesAt, DoesIn, DoesThere};
ghost use Rattle.f3_allocation_steps.specs.Acts.{DoesWith};

use f3_cells::cell::Cell;
use f3_cells::look::object_at;
use f3_cells::scene::Scene;
use f3_cells::stacks::{pop_elements, push};
use f3_cells::state::{State, Stop};
use f3_data::copies;
use f3_data::reference::{Maker, Reach, Reference};
use f3_data::store::Path;
use f3_data::value::Value;
use f3_located::changes;
use f3_located::elements::{count, element_path, place_at};
use f3_located::parts::{component, contents};
use f3_located::pins::is_pinned;
use f3_meaning_whole::run_error::RunError;
use f3_places::source::Place;
use f3_program::declarations::Base;
use std::alloc::{AllocError, Global};

/// The object is unallocated (ISO/IEC 1539-1:2004, 6.3.3).
#[inline(never)]
pub fn free(alloc: Global, state: &mut State) -> Result<(), Stop>
    requires { state.old.pc < 2 ^ 63 }
    ensures { Does i.Free result state.old state.new }
{
    let Some(object) = object_at(&state.stack, 0) else {
        return Err(Stop::Stuck);
    };
    changes::set(alloc, &mut state.store, object, Value::Unallocated)?;
    state.advance();
    Ok(())
}

/// What is allocated beneath the object is freed (6.3.3.1).
#[inline(never)]
pub fn clear(alloc: Global, state: &mut State) -> Result<(), Stop>
    requires { state.old.pc < 2 ^ 63 }
    ensures { Does i.Clear result state.old state.new }
{
    let Some(object) = object_at(&state.stack, 0) else {
        return Err(Stop::Stuck);
    };
    changes::clear(alloc, &mut state.store, object)?;
    state.advance();
    Ok(())
}

/// The elements of the object (6.2.2.2).
#[inline(never)]
pub fn walk_begin(alloc: Global, state: &mut State) -> Result<(), Stop>
    requires { state.old.pc < 2 ^ 63 }
    ensures { Does i.WalkBegin result state.old state.new }
{
    let Some(object) = object_at(&state.stack, 0) else {
        return Err(Stop::Stuck);
    };
    let whole = copies::reference(alloc, object)?;
    state.go_on_with(Cell::Elements(whole, 0))
}

/// What an object holds, or an error where it is in use (6.3.3): `InUse`, then `NotAllocated` (own rules).
#[inline(never)]
pub fn open_contents(alloc: Global, state: &mut State) -> Result<(), Stop>
    requires { state.old.pc < 2 ^ 63 }
    ensures { (place : Place) → DoesAt place i.OpenContents result state.old state.new }
{
    let Some(object) = object_at(&state.stack, 0) else {
        return Err(Stop::Stuck);
    };
    if is_pinned(&object.path, &state.here.lent) {
        return Err(Stop::Failed(RunError::InUse));
    }
    let whole = copies::reference(alloc, object)?;
    let found = contents(alloc, whole, &state.store)?;
    match found {
        Some(held) => state.go_on_with(Cell::Object(held)),
        None => Err(Stop::Failed(RunError::NotAllocated)),
    }
}

/// A component of the object, by its number, selected by the language.
#[inline(never)]
pub fn work_component(
    alloc: Global,
    scene: &Scene,
    state: &mut State,
    number: usize,
) -> Result<(), Stop>
    requires { state.old.pc < 2 ^ 63 }
    ensures { DoesWith scene.now None (i.WorkComponent number) result state.old state.new }
{
    let Some(object) = object_at(&state.stack, 0) else {
        return Err(Stop::Stuck);
    };
    let whole = copies::reference(alloc, object)?;
    let part = component(
        alloc,
        whole,
        number,
        Maker::Language,
        &scene.program.types,
        &state.store,
    )?;
    state.go_on_with(Cell::Object(part))
}

/// The path of an object that is meant, by its number, from 0 on.
#[tactic(auto, using(crate::proofs::Walking::only_path, crate::proofs::Walking::mapped_at))]
fn path_at(alloc: Global, whole: &Reference, k: usize) -> Result<Path, AllocError>
    requires { k < length (paths (reference_of whole.now)) }
    ensures { IfOk result (λ p. slice_get (paths (reference_of whole.now)) k ≡ Some (path_of p)) }
{
    match &whole.reach {
        Reach::One => copies::path(alloc, &whole.path),
        Reach::Many(section) => {
            let place = place_at(&section.numbers, k);
            element_path(alloc, &whole.path, place, &section.tail)
        }
    }
}

/// An object at a path, by the same root and components as another of its type.
fn element_at(alloc: Global, object: &Reference, path: Path) -> Result<Reference, AllocError>
    ensures { IfOk result (λ q. reference_of q ≡ moved (reference_of object.now) (path_of path) r.One) }
{
    let makers = Vec::from_slice(alloc, &object.makers)?;
    Ok(Reference {
        path,
        reach: Reach::One,
        of: object.of,
        right: object.right,
        origin: object.origin,
        makers,
    })
}

/// The next of the elements of the object, or so far on where there is none (6.2.2.2).
#[inline(never)]
pub fn walk_next(
    alloc: Global,
    state: &mut State,
    distance: usize,
    total: usize,
) -> Result<(), Stop>
    requires { state.old.pc < 2 ^ 63 }
    ensures { DoesIn total (i.WalkNext distance) result state.old state.new }
{
    let Some((whole, k)) = pop_elements(&mut state.stack) else {
        return Err(Stop::Stuck);
    };
    let Some(object) = object_at(&state.stack, 0) else {
        drop(whole);
        return Err(Stop::Stuck);
    };
    if k >= count(&whole) {
        drop(whole);
        return state.ahead(distance, total);
    }
    let path = path_at(alloc, &whole, k)?;
    let element = element_at(alloc, object, path)?;
    push(&mut state.stack, Cell::Elements(whole, k + 1))?;
    state.go_on_with(Cell::Object(element))
}
