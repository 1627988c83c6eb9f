//! An ASSOCIATE construct begins.

ghost use Rattle.std.specs.Prelude.{◌≡◌, ◌+◌, ◌<◌, ◌≤◌, ◌^◌, length};
ghost use Rattle.f3_code.specs.declared.instruction.Instruction.TheVariants as i;
ghost use Rattle.f3_word_cells.specs.Does.{Does, KeepsRoom};
ghost use Rattle.f3_word_associates.specs.Begun.{Begun, IsAtIn};

use crate::holding::hold;
use crate::naming::name_all;
use f3_word_cells::cell::{Cell, Range};
use f3_word_cells::state::{State, Stop};

/// The selectors on top, so many, get associate names, and what is held for them a level.
fn begin(state: &mut State, count: usize)
    requires pc { state.old.pc < 2 ^ 63 }
    requires selectors { count ≤ length state.old.cells.items.items }
    requires room { length state.old.cells.items.items + 2 ≤ state.old.cells.room }
    requires names { length state.old.names.items.items + count ≤ state.old.names.room }
    requires hand { state.old.here.names.count ≤ length state.old.names.items.items }
    requires blocks { length state.old.blocks.items.items + count ≤ state.old.blocks.room }
    requires levels { length state.old.levels.items.items < state.old.levels.room }
    ensures begun { Begun count state.old state.new }
    ensures keeps { KeepsRoom state.old state.new }
{
    let first = state.cells.items.len() - count;
    let level = state.levels.items.len();
    let objects = Range {
        from: state.names.items.len(),
        count,
    };
    name_all(&mut state.names, &state.cells.items[first..]);
    state.levels.push(state.blocks.items.len());
    hold(&mut state.blocks, &state.cells.items[first..]);
    state.cells.cut(first);
    state.cells.push(Cell::Level(level, objects));
    state.cells.push(Cell::Outside(state.here));
    state.here.names.count += count;
    state.pc += 1;
}

/// An ASSOCIATE begins with so many selectors, the last one on top: its names are for them, and statements may name them
/// (ISO/IEC 1539-1:2004, 8.1.4).
#[inline(never)]
pub fn associate(state: &mut State, count: usize) -> Result<(), Stop>
    requires pc { state.old.pc < 2 ^ 63 }
    requires room { length state.old.cells.items.items + 2 ≤ state.old.cells.room }
    requires names { length state.old.names.items.items + count ≤ state.old.names.room }
    requires blocks { length state.old.blocks.items.items + count ≤ state.old.blocks.room }
    requires levels { length state.old.levels.items.items < state.old.levels.room }
    requires at { IsAtIn (i.Associate count) state.old }
    ensures does { Does (i.Associate count) result state.old state.new }
    ensures keeps { KeepsRoom state.old state.new }
{
    begin(state, count);
    Ok(())
}
