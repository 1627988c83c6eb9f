//! The ASSOCIATE construct.

ghost use Rattle.std.specs.Prelude.{◌≡◌, ◌<◌, ◌≤◌, ◌^◌, length};
ghost use Rattle.f3_code.specs.declared.instruction.Instruction.TheVariants.{Associated, EndAssociate};
ghost use Rattle.f3_word_cells.specs.Does.{Does, Keeps, KeepsRoom};
ghost use Rattle.f3_word_calls.specs.Doing.{DoesWith, IsAtSome};

use crate::ends::end_levels;
use crate::operands::{pop_going, pop_level, pop_objects};
use f3_heap::Blocks;
use f3_word_cells::cell::Cell;
use f3_word_cells::state::{State, Stop};

/// The objects of the ASSOCIATE that was left.
#[inline(never)]
pub fn associated(state: &mut State) -> Result<(), Stop>
    requires pc { state.old.pc < 2 ^ 63 }
    requires room { length state.old.cells.items.items < state.old.cells.room }
    requires bottom { state.old.base ≤ length state.old.cells.items.items }
    ensures does { Does Associated result state.old state.new }
    ensures keeps { Keeps state.old state.new }
{
    let Some(flow) = pop_going(state) else {
        return Err(Stop::Lost);
    };
    let Some((level, objects)) = pop_level(state) else {
        return Err(Stop::Lost);
    };
    state.push(Cell::Level(level, objects));
    state.push(Cell::Going(flow));
    state.go_on_with(Cell::Objects(objects));
    Ok(())
}

/// The values that an ASSOCIATE held end.
#[inline(never)]
pub fn end_associate<B: Blocks>(heap: &mut B, state: &mut State) -> Result<(), Stop>
    requires pc { state.old.pc < 2 ^ 63 }
    requires room { length state.old.cells.items.items < state.old.cells.room }
    requires bottom { state.old.base ≤ length state.old.cells.items.items }
    requires at { IsAtSome EndAssociate (B.blocks heap.old) state.old }
    ensures does { DoesWith EndAssociate result (B.blocks heap.old) (B.blocks heap.new) state.old state.new }
    ensures keeps { KeepsRoom state.old state.new }
    ensures kept { B.kept heap.new ≡ B.kept heap.old }
{
    let Some(_left) = pop_objects(state) else {
        return Err(Stop::Lost);
    };
    let Some(flow) = pop_going(state) else {
        return Err(Stop::Lost);
    };
    let Some((level, objects)) = pop_level(state) else {
        return Err(Stop::Lost);
    };
    end_levels(heap, &mut state.levels, &mut state.blocks, level);
    state.names.cut(objects.from);
    state.go_on_with(Cell::Going(flow));
    Ok(())
}
