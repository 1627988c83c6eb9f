//! Instructions of assignments.

ghost use Rattle.std.specs.Prelude.{◌<◌, ◌^◌};
ghost use Rattle.f3_code.specs.declared.instruction.Instruction.TheVariants as i;
ghost use Rattle.f3_cells.specs.Follows.{Does};

use crate::acts::{assign, has_shape, pop_assigned, read};
use crate::taking::{datum_at, object_at, pop_object};
use f3_cells::cell::Cell;
use f3_cells::state::{State, Stop};
use f3_meaning_whole::run_error::RunError;
use f3_program::declarations::Base;
use std::alloc::Global;

/// What an object holds.
#[inline(never)]
pub fn load(alloc: Global, state: &mut State) -> Result<(), Stop>
    requires { state.old.pc < 2 ^ 63 }
    ensures { Does i.Load result state.old state.new }
{
    let Some(object) = pop_object(&mut state.stack) else {
        return Err(Stop::Stuck);
    };
    match read(alloc, &state.store, object) {
        Ok(value) => state.go_on_with(Cell::Datum(value)),
        Err(stop) => Err(stop),
    }
}

/// A variable takes a value, converted to a type, with storage for it (ISO/IEC 1539-1:2004, 7.4.1.3).
#[inline(never)]
pub fn take(alloc: Global, state: &mut State, of: Base) -> Result<(), Stop>
    requires { state.old.pc < 2 ^ 63 }
    ensures { Does (i.Take of) result state.old state.new }
{
    let Some((object, value)) = pop_assigned(&mut state.stack) else {
        return Err(Stop::Stuck);
    };
    match assign(alloc, &mut state.store, object, of, value) {
        Ok(()) => {
            state.advance();
            Ok(())
        }
        Err(stop) => Err(stop),
    }
}

/// A variable takes a value, converted to a type, in storage that it has.
#[inline(never)]
pub fn fill(alloc: Global, state: &mut State, of: Base) -> Result<(), Stop>
    requires { state.old.pc < 2 ^ 63 }
    ensures { Does (i.Fill of) result state.old state.new }
{
    let Some((object, value)) = pop_assigned(&mut state.stack) else {
        return Err(Stop::Stuck);
    };
    match assign(alloc, &mut state.store, object, of, value) {
        Ok(()) => {
            state.advance();
            Ok(())
        }
        Err(stop) => Err(stop),
    }
}

/// An error where a value is an array of another shape than a variable (7.4.1.3).
#[inline(never)]
pub fn test_shape(state: &mut State) -> Result<(), Stop>
    requires { state.old.pc < 2 ^ 63 }
    ensures { Does i.TestShape result state.old state.new }
{
    let Some(object) = object_at(&state.stack, 0) else {
        return Err(Stop::Stuck);
    };
    let Some(value) = datum_at(&state.stack, 1) else {
        return Err(Stop::Stuck);
    };
    if has_shape(object, value) {
        state.advance();
        Ok(())
    } else {
        Err(Stop::Failed(RunError::ShapesDiffer))
    }
}
