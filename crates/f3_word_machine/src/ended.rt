//! Ends of runs.

use f3_meaning_whole::run_error::RunError;
use f3_places::source::Place;

/// How a run ended, or why it was cut short.
#[derive(Clone, Copy, PartialEq, Eq, Debug)]
pub enum Ended {
    /// The END of the main program (ISO/IEC 1539-1:2004, 11.1).
    Done,
    /// A STOP, with its number (8.4).
    Stopped(Option<u32>),
    /// An error, and the place of the statement.
    Failed(RunError, Place),
    /// All instructions that it might take were taken.
    StepLimit,
    /// The output refused bytes.
    WriteFault,
    /// A growth of the host's memory was refused.
    Memory,
}
