//! States, and how a run ends.

ghost use Rattle.std.specs.Prelude.{◌≡◌, ◌+◌, ◌<◌, ◌^◌};
ghost use Rattle.f3_cells.specs.Moves.{Moved, WentAhead, WentAheadWith, WentOn};
ghost use Rattle.f3_cells.specs.declared.state.Stop.TheVariants.{Memory};

use crate::cell::{Cell, Here, Passed};
use crate::stacks::push;
use f3_data::store::Store;
use f3_meaning_whole::run_error::RunError;
use f3_places::source::Place;
use std::alloc::{AllocError, AllocFailed};

/// What a procedure goes back to: the line, the cells and the activation of its caller, the place where it was called, its
/// arguments, and the level of the values that are held for it.
#[derive(Drop)]
pub struct Frame {
    pub pc: usize,
    pub stack: Vec<Cell>,
    pub here: Here,
    pub caller: Place,
    pub arguments: Vec<Passed>,
    pub level: usize,
}

/// A state: the number of the next line, from 0 on, the cells of the activation, the one on top at the end, the activation,
/// the frames of its callers, the latest at the end, and the store.
#[derive(Drop)]
pub struct State {
    pub pc: usize,
    pub stack: Vec<Cell>,
    pub here: Here,
    pub frames: Vec<Frame>,
    pub store: Store,
}

/// Why a machine stops.
#[derive(Clone, Copy, PartialEq, Eq, Debug)]
pub enum Stop {
    /// The program ended.
    Done,
    /// A STOP, with its number (ISO/IEC 1539-1:2004, 8.4).
    Stopped(Option<u32>),
    /// An error at the place of the line.
    Failed(RunError),
    /// The cells are not those that the instruction takes, which no code of a program comes to.
    Stuck,
    /// A jump leads to where there is no line, which no code of a program does.
    Lost,
    /// The output refused bytes.
    Refused,
    /// A growth of the host's memory was refused.
    Memory,
}

impl From<AllocError> for Stop {
    ghost from_gives = { λ _ e. e ≡ Memory };

    fn from(_error: AllocError) -> Self {
        Stop::Memory
    }
}

impl<T: Drop> From<AllocFailed<T>> for Stop {
    ghost from_gives = { λ _ e. e ≡ Memory };

    fn from(_error: AllocFailed<T>) -> Self {
        Stop::Memory
    }
}

impl State {
    /// Drops the state: a crate that drops it by itself proves once more how all that it holds is dropped.
    pub fn release(self) {
        drop(self);
    }

    /// The next line comes after this one.
    pub fn advance(&mut self)
        requires { self.old.pc < 2 ^ 63 }
        ensures { Moved (self.old.pc + 1) self.old self.new }
    {
        self.pc += 1;
    }

    /// So far on from the next line, where there are so many lines. `Stop::Lost` where no line is there; the state stays.
    pub fn ahead(&mut self, distance: usize, total: usize) -> Result<(), Stop>
        requires { self.old.pc < 2 ^ 63 }
        ensures { WentAhead distance total result self.old self.new }
    {
        let next = self.pc + 1;
        if total.saturating_sub(next) > distance {
            self.pc = next + distance;
            Ok(())
        } else {
            Err(Stop::Lost)
        }
    }

    /// One more cell on top, and so far on from the next line, where there are so many lines. `Stop::Lost` where no line is there.
    #[inline(always)]
    pub fn ahead_with(&mut self, cell: Cell, distance: usize, total: usize) -> Result<(), Stop>
        requires { self.old.pc < 2 ^ 63 }
        ensures { WentAheadWith cell distance total result self.old self.new }
    {
        push(&mut self.stack, cell)?;
        self.ahead(distance, total)
    }

    /// One more cell on top, and the next line comes after this one.
    #[inline(always)]
    pub fn go_on_with(&mut self, cell: Cell) -> Result<(), Stop>
        requires { self.old.pc < 2 ^ 63 }
        ensures { WentOn cell result self.old self.new }
    {
        push(&mut self.stack, cell)?;
        self.advance();
        Ok(())
    }
}
