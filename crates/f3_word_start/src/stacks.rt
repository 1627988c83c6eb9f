//! The stacks of a state.

ghost use Rattle.std.specs.Prelude.{◌≡◌, IfOk};
ghost use Rattle.f3_word_start.specs.declared.stacks.Room as r;
ghost use Rattle.f3_word_start.specs.Begins.{IsReady};
ghost use Rattle.f3_word_start.specs.Inner.Stacks.{AreReady, IsFirst};

use f3_heap::BlockId;
use f3_program::program::Program;
use f3_word_cells::cell::{Cell, Here, Range};
use f3_word_cells::stack::Stack;
use f3_word_cells::state::{Caller, Name, State};
use std::alloc::{AllocError, Global};

/// For how many cells, names, callers, blocks and levels there is room at least.
#[derive(Clone, Copy, Debug, PartialEq, Eq)]
pub struct Room {
    pub cells: usize,
    pub names: usize,
    pub callers: usize,
    pub blocks: usize,
    pub levels: usize,
}

/// Stacks on which nothing stands.
#[derive(Drop)]
pub(crate) struct Stacks {
    pub(crate) cells: Stack<Cell>,
    pub(crate) names: Stack<Name>,
    pub(crate) callers: Stack<Caller>,
    pub(crate) blocks: Stack<BlockId>,
    pub(crate) levels: Stack<usize>,
}

impl Stacks {
    /// With so much room, and at least that for the block and the level of the main program.
    ///
    /// `AllocError` where the host has no memory for it.
    pub(crate) fn new(alloc: Global, room: Room) -> Result<Stacks, AllocError>
        ensures { IfOk result (AreReady room) }
    {
        Ok(Stacks {
            cells: Stack::new(alloc, room.cells)?,
            names: Stack::new(alloc, room.names)?,
            callers: Stack::new(alloc, room.callers)?,
            blocks: Stack::new(alloc, room.blocks.max(1))?,
            levels: Stack::new(alloc, room.levels.max(1))?,
        })
    }

    /// The state before the first line of a program, whose variables stand in these blocks: those that live for the whole run, and the
    /// main program's.
    pub(crate) fn state(self, program: &Program, statics: BlockId, main: BlockId) -> State
        requires ready { (room : r.Room) × AreReady room self }
        ensures first { IsFirst program.now statics main result }
        ensures ready { (room : r.Room) → AreReady room self → IsReady room result }
    {
        let mut blocks = self.blocks;
        blocks.push(main);
        let mut levels = self.levels;
        levels.push(0);
        State {
            pc: 0,
            cells: self.cells,
            base: 0,
            here: Here {
                place: program.start,
                unit: program.main.unit,
                level: 0,
                procedure: None,
                names: Range { from: 0, count: 0 },
                selected: None,
            },
            names: self.names,
            callers: self.callers,
            statics,
            blocks,
            levels,
        }
    }
}
