//! A procedure that begins with the arguments on top.

ghost use Rattle.std.specs.Prelude.{◌≡◌, ◌+◌, ◌<◌, ◌≤◌, ◌^◌, length};
ghost use Rattle.f3_word_cells.specs.Does.{KeepsRoom};
ghost use Rattle.f3_word_entries.specs.Entered.{Entered};

use crate::holding::hold;
use crate::naming::name_all;
use f3_heap::BlockId;
use f3_places::source::Place;
use f3_program::program::Procedure;
use f3_word_cells::cell::{Here, Range};
use f3_word_cells::state::{Caller, State};

/// What a call goes to: a procedure by its number, the line at which it begins, and the place where it is called.
#[derive(Clone, Copy)]
pub(crate) struct Goal<'a> {
    pub procedure: &'a Procedure,
    pub number: usize,
    pub pc: usize,
    pub place: Place,
}

/// The arguments on top, so many, become the dummies of a procedure, whose variables stand in a block (12.4.1.2).
pub(crate) fn enter(state: &mut State, goal: Goal<'_>, count: usize, block: BlockId)
    requires pc { state.old.pc < 2 ^ 63 }
    requires arguments { count ≤ length state.old.cells.items.items }
    requires names { length state.old.names.items.items + length goal.procedure.now.dummies.items ≤ state.old.names.room }
    requires callers { length state.old.callers.items.items < state.old.callers.room }
    requires blocks { length state.old.blocks.items.items + count + 1 ≤ state.old.blocks.room }
    requires levels { length state.old.levels.items.items + 2 ≤ state.old.levels.room }
    ensures entered { Entered goal.entry.procedure.now goal.entry.number goal.entry.pc count block goal.entry.place state.old state.new }
    ensures keeps { KeepsRoom state.old state.new }
{
    let first = state.cells.items.len() - count;
    let level = state.levels.items.len();
    let dummies = Range {
        from: state.names.items.len(),
        count: goal.procedure.dummies.len(),
    };
    name_all(
        &mut state.names,
        &state.cells.items[first..],
        0,
        &goal.procedure.dummies,
    );
    state.levels.push(state.blocks.items.len());
    hold(&mut state.blocks, &state.cells.items[first..]);
    state.levels.push(state.blocks.items.len());
    state.blocks.push(block);
    state.cells.cut(first);
    state.callers.push(Caller {
        pc: state.pc + 1,
        here: state.here,
        base: state.base,
        place: goal.place,
        level,
        dummies,
    });
    state.base = first;
    state.here = Here {
        place: goal.place,
        unit: goal.procedure.unit,
        level: level + 1,
        procedure: Some(goal.number),
        names: dummies,
        selected: None,
    };
    state.pc = goal.pc;
}
