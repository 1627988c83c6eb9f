//! New objects.

ghost use Rattle.std.specs.Prelude.{◌≡◌, ◌<◌, ◌≤◌, ◌^◌, pos, true, IfOk, MatchOption, map};
ghost use Rattle.f3_meaning_whole.specs.Value as m;
ghost use Rattle.f3_code.specs.Exec.{allocate};
ghost use Rattle.f3_arithmetic.specs.Turns.{turns_of};
ghost use Rattle.f3_meaning_whole.specs.Exec as meaning;
ghost use Rattle.f3_meaning_whole.specs.Exec.{status_number, too_many};
ghost use Rattle.f3_data.specs.Values as view;
ghost use Rattle.f3_data.specs.Values.{value_of};
ghost use Rattle.f3_data.specs.References.{reference_of};
ghost use Rattle.f3_code.specs.declared.instruction.Instruction.TheVariants as i;
ghost use Rattle.f3_gen_values.specs.Emitted.{taken};
ghost use Rattle.f3_cells.specs.States.{setting};
ghost use Rattle.f3_cells.specs.Popped.{extent_in};
ghost use Rattle.f3_cells.specs.Follows.{Does};
ghost use Rattle.f3_allocation_steps.specs.Acts.{DoesWith, FitsIn, Performs, too_large};

use crate::states::is_allocated_at;
use f3_cells::cell::Cell;
use f3_cells::look::{datum_at, object_at};
use f3_cells::many::pop_extents;
use f3_cells::scene::Scene;
use f3_cells::stacks::{pop_object, pop_status};
use f3_cells::state::{State, Stop};
use f3_data::reference::Reference;
use f3_data::store::Store;
use f3_data::value::{Span, Value, spans_of};
use f3_located::changes;
use f3_meaning_whole::run_error::RunError;
use f3_program::declarations::Base;
use f3_program::program::Program;
use f3_shaping::bounds::is_too_large;
use f3_shaping::initial::{initial, vacant};
use std::alloc::{AllocError, Global};

/// The value that a line takes: nothing, or the value with which an object of a type begins (ISO/IEC 1539-1:2004, 4.5.3.4).
fn line_value(alloc: Global, program: &Program, of: Option<Base>) -> Result<Value, AllocError>
    ensures { IfOk result (λ x. value_of x ≡ taken (setting program.now) of) }
{
    match of {
        Some(of) => initial(alloc, &program.types, of),
        None => Ok(Value::Unallocated),
    }
}

/// The object takes the line's value: that with which an object of a type begins.
#[inline(never)]
pub fn set(alloc: Global, scene: &Scene, state: &mut State, begin: Option<Base>) -> Result<(), Stop>
    requires { state.old.pc < 2 ^ 63 }
    ensures { DoesWith scene.now begin i.Set result state.old state.new }
{
    let Some(object) = object_at(&state.stack, 0) else {
        return Err(Stop::Stuck);
    };
    let value = line_value(alloc, scene.program, begin)?;
    changes::set(alloc, &mut state.store, object, value)?;
    state.advance();
    Ok(())
}

/// A new object of a rank and bounds, whose elements begin with the line's value (6.3.1).
fn new_object(
    alloc: Global,
    program: &Program,
    of: Option<Base>,
    rank: usize,
    spans: &[Span],
) -> Result<Value, AllocError>
    ensures { IfOk result (λ x. value_of x ≡ m.Allocated (meaning.vacant rank (view.spans_of spans.now) (taken (setting program.now) of))) }
{
    let element = line_value(alloc, program, of)?;
    let value = vacant(alloc, rank, spans, &element)?;
    drop(element);
    Ok(Value::Allocated(Box::new(alloc, value)?))
}

/// A variable is allocated with the bounds of a value and of a rank; its elements have the line's value (own rule).
#[inline(never)]
pub fn new(
    alloc: Global,
    scene: &Scene,
    state: &mut State,
    begin: Option<Base>,
    rank: usize,
) -> Result<(), Stop>
    requires { state.old.pc < 2 ^ 63 }
    ensures { DoesWith scene.now begin (i.New rank) result state.old state.new }
{
    let Some(object) = object_at(&state.stack, 0) else {
        return Err(Stop::Stuck);
    };
    let Some(value) = datum_at(&state.stack, 1) else {
        return Err(Stop::Stuck);
    };
    let new = new_object(alloc, scene.program, begin, rank, spans_of(value))?;
    changes::set(alloc, &mut state.store, object, new)?;
    state.advance();
    Ok(())
}

/// The number of an error, and 0 of none (6.3.1.3, 6.3.3.3).
fn number_of(status: Option<RunError>) -> Value
    ensures { value_of result ≡ m.Number (pos (status_number status)) }
{
    match status {
        Some(error) => Value::Number(i64::from(error.number())),
        None => Value::Number(0),
    }
}

/// The number of an error, 0 of none, goes to a variable (6.3.1.3, 6.3.3.3).
#[inline(never)]
pub fn store_status(alloc: Global, state: &mut State) -> Result<(), Stop>
    requires { state.old.pc < 2 ^ 63 }
    ensures { Does i.StoreStatus result state.old state.new }
{
    let Some(object) = pop_object(&mut state.stack) else {
        return Err(Stop::Stuck);
    };
    let Some(status) = pop_status(&mut state.stack) else {
        drop(object);
        return Err(Stop::Stuck);
    };
    changes::set(alloc, &mut state.store, &object, number_of(status))?;
    drop(object);
    state.advance();
    Ok(())
}

/// How many subscripts a dimension has, given how many follow the first, if there is one: none where they are 2 to the 64.
fn extent_of(turns: Option<u64>) -> Option<u64>
    ensures { MatchOption result (2 ^ 64 ≤ turns_of turns) (λ n. n ≡ turns_of turns) }
{
    match turns {
        Some(others) => others.checked_add(1),
        None => Some(0),
    }
}

/// The bounds of dimensions, each with its lower bound and how many subscripts follow its first, if there is one: none where there
/// are too many subscripts.
fn spans_in(alloc: Global, extents: &[(i64, Option<u64>)]) -> Result<Option<Vec<Span>>, AllocError>
    ensures { IfOk result (λ found. MatchOption found (too_many (map extent_in extents.now) ≡ true) (λ ss. view.spans_of ss.items ≡ map extent_in extents.now)) }
{
    let mut spans = Vec::new(alloc);
    for dimension in extents {
        let Some(extent) = extent_of(dimension.1) else {
            return Ok(None);
        };
        spans.push(Span {
            lower: dimension.0,
            extent,
        })?;
    }
    Ok(Some(spans))
}

/// The bounds of a new array: none where it is too large (own rule for 6.3.1).
fn new_bounds(
    alloc: Global,
    extents: &[(i64, Option<u64>)],
) -> Result<Option<Vec<Span>>, AllocError>
    ensures { IfOk result (λ found. MatchOption found (too_large (map extent_in extents.now) ≡ true) (λ ss. FitsIn ss.items (map extent_in extents.now))) }
{
    let Some(spans) = spans_in(alloc, extents)? else {
        return Ok(None);
    };
    if is_too_large(&spans) {
        drop(spans);
        Ok(None)
    } else {
        Ok(Some(spans))
    }
}

/// An object of a rank is allocated with these dimensions; its elements begin with the line's value (6.3.1). An error that there
/// was: `AlreadyAllocated`, then `ArrayTooLarge` (own rules).
fn allocate_object(
    alloc: Global,
    program: &Program,
    store: &mut Store,
    begin: Option<Base>,
    rank: usize,
    object: &Reference,
    extents: &[(i64, Option<u64>)],
) -> Result<Option<RunError>, AllocError>
    ensures { IfOk result (λ status. Performs (allocate rank (taken (setting program.now) begin) (reference_of object.now) (map extent_in extents.now)) store.old status store.new) }
{
    if is_allocated_at(store, &object.path) {
        return Ok(Some(RunError::AlreadyAllocated));
    }
    let Some(spans) = new_bounds(alloc, extents)? else {
        return Ok(Some(RunError::ArrayTooLarge));
    };
    let new = new_object(alloc, program, begin, rank, &spans)?;
    drop(spans);
    changes::set(alloc, store, object, new)?;
    Ok(None)
}

/// An object of a rank is allocated with so many dimensions; its elements begin with the line's value (6.3.1). How it ended is on
/// top: `AlreadyAllocated`, then `ArrayTooLarge` (own rules), or no error.
#[inline(never)]
pub fn allocate(
    alloc: Global,
    scene: &Scene,
    state: &mut State,
    begin: Option<Base>,
    rank: usize,
    dimensions: usize,
) -> Result<(), Stop>
    requires { state.old.pc < 2 ^ 63 }
    ensures { DoesWith scene.now begin (i.Allocate rank dimensions) result state.old state.new }
{
    let extents = match pop_extents(alloc, &mut state.stack, dimensions) {
        Ok(extents) => extents,
        Err(stop) => return Err(stop),
    };
    let Some(object) = pop_object(&mut state.stack) else {
        return Err(Stop::Stuck);
    };
    let status = allocate_object(
        alloc,
        scene.program,
        &mut state.store,
        begin,
        rank,
        &object,
        &extents,
    )?;
    drop(object);
    state.go_on_with(Cell::Status(status))
}
