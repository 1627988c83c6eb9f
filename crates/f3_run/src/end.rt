//! How runs end.

use f3_meaning_whole::run_error::RunError;
use f3_places::source::Place;

/// How a run ends.
#[derive(Clone, Copy, PartialEq, Eq, Debug)]
pub enum End {
    /// At the END of the main program.
    Done,
    /// At a STOP, with its digits where it has any (ISO/IEC 1539-1:2004, 8.4).
    Stopped(Option<u32>),
    /// With a run error, and the first token of the innermost statement at work (own rule).
    Error { error: RunError, place: Place },
    /// After as many instructions as it may make.
    StepLimit,
    /// Where the writer failed, or took no byte.
    WriteFault,
    /// For want of memory.
    Memory,
}

/// What a run may use.
#[derive(Clone, Copy, PartialEq, Eq, Debug)]
pub struct Limits {
    /// The most instructions; the first takes the storage of the main program.
    pub steps: u64,
    /// The size of the heap in words (own rule): what variables and objects take of it is counted, and no more is given.
    pub heap_words: usize,
}
