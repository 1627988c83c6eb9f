//! States, and how a run ends.

ghost use Rattle.std.specs.Prelude.{◌≡◌, ◌+◌, ◌<◌, ◌≤◌, ◌^◌, length, IsTrue, ◌↔◌};
ghost use Rattle.f3_word_cells.specs.Moves.{Moved, PoppedOr, Pushed, WentAhead};

use crate::cell::{Cell, Here, Object, Range};
use crate::stack::Stack;
use f3_heap::BlockId;
use f3_meaning_whole::run_error::RunError;
use f3_places::source::Place;

/// A dummy or an associate name: the object, and whether it is a value that is held for it.
#[derive(Drop)]
pub struct Name {
    pub object: Object,
    pub is_held: bool,
}

/// What a procedure goes back to: the line and the activation of its caller, where the cells of that begin, the place where it was called,
/// the level of the values that are held for it, and its dummies.
#[derive(Clone, Copy, Debug)]
pub struct Caller {
    pub pc: usize,
    pub here: Here,
    pub base: usize,
    pub place: Place,
    pub level: usize,
    pub dummies: Range,
}

/// A state: the number of the next line, from 0 on; the cells of all activations, the one on top at the end, and where those of the one at
/// work begin; the activation; the names of all activations; the callers, the latest at the end; the block of the variables that live for
/// the whole run; the blocks of all levels, and of each level which of these is its first.
#[derive(Drop)]
pub struct State {
    pub pc: usize,
    pub cells: Stack<Cell>,
    pub base: usize,
    pub here: Here,
    pub names: Stack<Name>,
    pub callers: Stack<Caller>,
    pub statics: BlockId,
    pub blocks: Stack<BlockId>,
    pub levels: Stack<usize>,
}

/// Why a machine stops.
#[derive(Clone, Copy, PartialEq, Eq, Debug)]
pub enum Stop {
    /// The program ended.
    Done,
    /// A STOP, with its number (ISO/IEC 1539-1:2004, 8.4).
    Stopped(Option<u32>),
    /// An error at the place of the line.
    Failed(RunError),
    /// A jump leads to where there is no line, or what has no caller goes back to it, which no code of a program does.
    Lost,
    /// A value that is held would change, which only happens where a change is not permitted.
    Forbidden,
    /// The output refused bytes.
    Refused,
    /// A growth of the host's memory was refused, in a heap that asks for more.
    Memory,
}

impl State {
    /// The cell on top of the activation at work, which is taken, if there is one.
    pub fn pop(&mut self) -> Option<Cell>
        ensures { PoppedOr result self.old self.new }
    {
        if self.cells.items.len() <= self.base {
            return None;
        }
        self.cells.pop()
    }

    /// One more cell on top.
    pub fn push(&mut self, cell: Cell)
        requires room { length self.old.cells.items.items < self.old.cells.room }
        requires bottom { self.old.base ≤ length self.old.cells.items.items }
        ensures { Pushed cell self.old.pc self.old self.new }
    {
        self.cells.push(cell);
    }

    /// One more cell on top, and the next line comes.
    pub fn go_on_with(&mut self, cell: Cell)
        requires pc { self.old.pc < 2 ^ 63 }
        requires room { length self.old.cells.items.items < self.old.cells.room }
        requires bottom { self.old.base ≤ length self.old.cells.items.items }
        ensures { Pushed cell (self.old.pc + 1) self.old self.new }
    {
        self.cells.push(cell);
        self.pc += 1;
    }

    /// The next line comes after this one.
    pub fn advance(&mut self)
        requires { self.old.pc < 2 ^ 63 }
        ensures { Moved (self.old.pc + 1) self.old self.new }
    {
        self.pc += 1;
    }

    /// So far on from the next line, where there are so many lines.
    ///
    /// `Stop::Lost` where no line is there; the state stays.
    pub fn ahead(&mut self, distance: usize, total: usize) -> Result<(), Stop>
        requires { self.old.pc < 2 ^ 63 }
        ensures { WentAhead distance total result self.old self.new }
    {
        let next = self.pc + 1;
        if total.saturating_sub(next) > distance {
            self.pc = next + distance;
            Ok(())
        } else {
            Err(Stop::Lost)
        }
    }
}
