//! How objects stand.

ghost use Rattle.std.specs.Prelude.{◌≡◌, ◌<◌, ◌^◌, IfOk};
ghost use Rattle.f3_meaning_whole.specs.Value.{shown};
ghost use Rattle.f3_meaning_whole.specs.Value as m;
ghost use Rattle.f3_meaning_whole.specs.Store.{get};
ghost use Rattle.f3_meaning_whole.specs.Reference as r;
ghost use Rattle.f3_data.specs.Values as view;
ghost use Rattle.f3_data.specs.Values.{value_of};
ghost use Rattle.f3_data.specs.Stores.{path_of, store_of};
ghost use Rattle.f3_data.specs.References.{reference_of};
ghost use Rattle.f3_data.specs.Lent.{lent_of};
ghost use Rattle.f3_code.specs.declared.instruction.Instruction.TheVariants as i;
ghost use Rattle.f3_cells.specs.Follows.{Does, DoesIn};
ghost use Rattle.f3_allocation_steps.specs.Acts.{Branches, DoesHere, hindrance};

use f3_cells::cell::Cell;
use f3_cells::look::{datum_at, object_at};
use f3_cells::stacks::{drop_cells, pop_object};
use f3_cells::state::{State, Stop};
use f3_data::copies;
use f3_data::lent::Lent;
use f3_data::reference::{Reach, Reference};
use f3_data::store::{Path, Store};
use f3_data::value::{Span, Value, is_allocated as is_allocated_value, spans_of};
use f3_located::parts::held_at;
use f3_located::pins::is_pinned;
use f3_meaning_whole::run_error::RunError;
use f3_shaping::bounds::{conforms, show};
use std::alloc::{AllocError, Global};

/// Whether an object at a path is allocated.
pub(crate) fn is_allocated_at(store: &Store, path: &Path) -> bool
    ensures { result ≡ m.is_allocated (get (store_of store.now) (path_of path.now)) }
{
    match store.get(path) {
        Some(value) => is_allocated_value(value),
        None => false,
    }
}

/// Whether an object is allocated (ISO/IEC 1539-1:2004, 13.7.9).
#[inline(never)]
pub fn is_allocated(state: &mut State) -> Result<(), Stop>
    requires { state.old.pc < 2 ^ 63 }
    ensures { Does i.IsAllocated result state.old state.new }
{
    let Some(object) = pop_object(&mut state.stack) else {
        return Err(Stop::Stuck);
    };
    let is_there = is_allocated_at(&state.store, &object.path);
    drop(object);
    state.go_on_with(Cell::Datum(Value::Truth(is_there)))
}

/// The bounds of an object as LBOUND and UBOUND tell them (13.7.60, 13.7.121).
fn shown_bounds(alloc: Global, object: &Reference) -> Result<Vec<Span>, AllocError>
    ensures { IfOk result (λ ss. view.spans_of ss.items ≡ shown (r.spans (reference_of object.now).reach)) }
{
    match &object.reach {
        Reach::One => Ok(Vec::new(alloc)),
        Reach::Many(section) => {
            let mut spans = copies::spans(alloc, &section.spans)?;
            show(&mut spans);
            Ok(spans)
        }
    }
}

/// The bounds of a variable (13.7.60, 13.7.121).
#[inline(never)]
pub fn bounds_of_variable(alloc: Global, state: &mut State) -> Result<(), Stop>
    requires { state.old.pc < 2 ^ 63 }
    ensures { Does i.BoundsOfVariable result state.old state.new }
{
    let Some(object) = pop_object(&mut state.stack) else {
        return Err(Stop::Stuck);
    };
    let spans = shown_bounds(alloc, &object)?;
    drop(object);
    state.go_on_with(Cell::Bounds(spans))
}

/// So far on where the object is not allocated.
#[inline(never)]
pub fn skip_unless_allocated(state: &mut State, distance: usize, total: usize) -> Result<(), Stop>
    requires { state.old.pc < 2 ^ 63 }
    ensures { DoesIn total (i.SkipUnlessAllocated distance) result state.old state.new }
{
    let Some(object) = object_at(&state.stack, 0) else {
        return Err(Stop::Stuck);
    };
    if is_allocated_at(&state.store, &object.path) {
        state.advance();
        Ok(())
    } else {
        state.ahead(distance, total)
    }
}

/// How far on the next line is, unless it is the one behind: by whether a variable is allocated, and has the shape of a value
/// (own rule for 7.4.1.3).
fn distance_by(
    store: &Store,
    path: &Path,
    value: &Value,
    other: usize,
    unallocated: usize,
) -> Option<usize>
    ensures { Branches (get (store_of store.now) (path_of path.now)) (value_of value.now) other unallocated result }
{
    match held_at(store, path) {
        Some(held) => {
            if conforms(spans_of(held), value) {
                None
            } else {
                Some(other)
            }
        }
        None => Some(unallocated),
    }
}

/// On where a variable is allocated in the shape of a value, else so far where it is allocated, and so far where it is not (own
/// rule).
#[inline(never)]
pub fn by_state(
    state: &mut State,
    other: usize,
    unallocated: usize,
    total: usize,
) -> Result<(), Stop>
    requires { state.old.pc < 2 ^ 63 }
    ensures { DoesIn total (i.ByState other unallocated) result state.old state.new }
{
    let Some(object) = object_at(&state.stack, 0) else {
        return Err(Stop::Stuck);
    };
    let Some(value) = datum_at(&state.stack, 1) else {
        return Err(Stop::Stuck);
    };
    match distance_by(&state.store, &object.path, value, other, unallocated) {
        Some(distance) => state.ahead(distance, total),
        None => {
            state.advance();
            Ok(())
        }
    }
}

/// An error where a value has another rank (own rule).
#[inline(never)]
pub fn test_rank(state: &mut State, rank: usize) -> Result<(), Stop>
    requires { state.old.pc < 2 ^ 63 }
    ensures { Does (i.TestRank rank) result state.old state.new }
{
    let Some(_object) = object_at(&state.stack, 0) else {
        return Err(Stop::Stuck);
    };
    let Some(value) = datum_at(&state.stack, 1) else {
        return Err(Stop::Stuck);
    };
    if rank == spans_of(value).len() {
        state.advance();
        Ok(())
    } else {
        Err(Stop::Failed(RunError::NotAllocated))
    }
}

/// Why an object may not be deallocated, if there is a reason (6.3.3): `NotAllocated`, or `InUse` (own rule).
fn hindrance(store: &Store, path: &Path, lent: &Lent) -> Option<RunError>
    ensures { result ≡ hindrance (store_of store.now) (path_of path.now) (lent_of lent.now) }
{
    if !is_allocated_at(store, path) {
        return Some(RunError::NotAllocated);
    }
    if is_pinned(path, lent) {
        Some(RunError::InUse)
    } else {
        None
    }
}

/// On where an object may be deallocated, else there is an error, so far on (6.3.3): `NotAllocated`, then `InUse`.
#[inline(never)]
pub fn test_free(state: &mut State, distance: usize, total: usize) -> Result<(), Stop>
    requires { state.old.pc < 2 ^ 63 }
    ensures { DoesHere total (i.TestFree distance) result state.old state.new }
{
    let Some(object) = object_at(&state.stack, 0) else {
        return Err(Stop::Stuck);
    };
    match hindrance(&state.store, &object.path, &state.here.lent) {
        Some(error) => {
            drop_cells(&mut state.stack, 1);
            state.ahead_with(Cell::Status(Some(error)), distance, total)
        }
        None => {
            state.advance();
            Ok(())
        }
    }
}
