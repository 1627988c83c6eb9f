//! The end of a procedure.

ghost use Rattle.std.specs.Prelude.{◌≡◌, ◌<◌, ◌≤◌, ◌^◌, length};
ghost use Rattle.f3_code.specs.declared.instruction.Instruction.TheVariants.{Return};
ghost use Rattle.f3_code.specs.declared.instruction.Instruction.TheVariants as instruction;
ghost use Rattle.f3_word_cells.specs.Does.{Does, Keeps, KeepsRoom};
ghost use Rattle.f3_word_calls.specs.Doing.{DoesWith, IsAtSome};

use crate::ends::{clear, end_levels};
use crate::operands::{pop_datum, pop_objects};
use f3_heap::Blocks;
use f3_word_areas::values::plain;
use f3_word_cells::cell::Cell;
use f3_word_cells::state::{State, Stop};

/// Back to the caller (ISO/IEC 1539-1:2004, 12.4).
#[inline(never)]
pub fn return_to_caller<B: Blocks>(heap: &mut B, state: &mut State) -> Result<(), Stop>
    requires room { length state.old.cells.items.items < state.old.cells.room }
    requires at { IsAtSome Return (B.blocks heap.old) state.old }
    ensures does { DoesWith Return result (B.blocks heap.old) (B.blocks heap.new) state.old state.new }
    ensures keeps { KeepsRoom state.old state.new }
    ensures kept { B.kept heap.new ≡ B.kept heap.old }
{
    let Some(_objects) = pop_objects(state) else {
        return Err(Stop::Lost);
    };
    let Some(value) = pop_datum(state) else {
        return Err(Stop::Lost);
    };
    clear(heap, state);
    let Some(caller) = state.callers.pop() else {
        return Err(Stop::Lost);
    };
    end_levels(heap, &mut state.levels, &mut state.blocks, caller.level);
    state.names.cut(caller.dummies.from);
    state.here = caller.here;
    state.base = caller.base;
    state.cells.push(Cell::Datum(value));
    state.pc = caller.pc;
    Ok(())
}

/// The value of a function that has returned (12.4.2).
#[inline(never)]
pub fn result(state: &mut State) -> Result<(), Stop>
    requires pc { state.old.pc < 2 ^ 63 }
    requires room { length state.old.cells.items.items < state.old.cells.room }
    requires bottom { state.old.base ≤ length state.old.cells.items.items }
    ensures does { Does instruction.Result result state.old state.new }
    ensures keeps { Keeps state.old state.new }
{
    let Some(value) = pop_datum(state) else {
        return Err(Stop::Lost);
    };
    state.go_on_with(Cell::Datum(plain(value)));
    Ok(())
}
