//! Instructions whose requests are refused.

ghost use Rattle.std.specs.Prelude.{◌<◌, ◌^◌, ℕ, Err};
ghost use Rattle.f3_code.specs.declared.instruction.Instruction.TheVariants as i;
ghost use Rattle.f3_requests.specs.Inner.Counted.{Refused};

use f3_cells::cell::Cell;
use f3_cells::look::datum_at;
use f3_cells::many::{pop_arguments, pop_extents};
use f3_cells::stacks::pop_object;
use f3_cells::state::{State, Stop};
use f3_code::instruction::Instruction;
use f3_meaning_whole::run_error::RunError;
use f3_program::declarations::Base;
use f3_shaping::operators::fits;
use std::alloc::Global;

/// A call with so many arguments ends the run (own rule for ISO/IEC 1539-1:2004, 12.4).
fn call(alloc: Global, state: &mut State, count: usize) -> Stop
    ensures { (number : ℕ) → Refused (i.Call number count) (Err result) state.old state.new }
{
    match pop_arguments(alloc, &mut state.stack, count) {
        Ok(arguments) => {
            drop(arguments);
            Stop::Failed(RunError::HeapHasNoRoom)
        }
        Err(stop) => stop,
    }
}

/// An assignment ends the run: `Overflow` where the value does not fit the type, else there is no room (own rules for 7.4.1.3).
fn take(state: &State, of: Base) -> Stop
    ensures { Refused (i.Take of) (Err result) state.now state.now }
{
    let Some(value) = datum_at(&state.stack, 1) else {
        return Stop::Stuck;
    };
    if fits(of, value) {
        Stop::Failed(RunError::HeapHasNoRoom)
    } else {
        Stop::Failed(RunError::Overflow)
    }
}

/// An ALLOCATE of so many dimensions has ended with an error (own rule for 6.3.1.3).
fn allocate(alloc: Global, state: &mut State, dimensions: usize) -> Result<(), Stop>
    requires { state.old.pc < 2 ^ 63 }
    ensures { (rank : ℕ) → Refused (i.Allocate rank dimensions) result state.old state.new }
{
    let extents = match pop_extents(alloc, &mut state.stack, dimensions) {
        Ok(extents) => extents,
        Err(stop) => return Err(stop),
    };
    drop(extents);
    let Some(object) = pop_object(&mut state.stack) else {
        return Err(Stop::Stuck);
    };
    drop(object);
    state.go_on_with(Cell::Status(Some(RunError::HeapHasNoRoom)))
}

/// An instruction is done whose request is refused: an ALLOCATE tells it, and all others end the run (own rules).
#[inline(never)]
pub(crate) fn refuse(alloc: Global, act: Instruction, state: &mut State) -> Result<(), Stop>
    requires { state.old.pc < 2 ^ 63 }
    ensures { Refused act result state.old state.new }
{
    match act {
        Instruction::Call(_, count) => Err(call(alloc, state, count)),
        Instruction::Take(of) => Err(take(state, of)),
        Instruction::Allocate(_, dimensions) => allocate(alloc, state, dimensions),
        Instruction::New(_) => Err(Stop::Failed(RunError::HeapHasNoRoom)),
        Instruction::SelectValue(_) => Err(Stop::Failed(RunError::HeapHasNoRoom)),
        _ => Err(Stop::Stuck),
    }
}
