//! Parts of runs.

use f3_machine_laws::ended::Ended;

/// How far a part of a run came.
#[derive(Clone, Copy)]
pub(crate) enum Part {
    /// To the end of the run.
    Ended(Ended),
    /// To a state from which the run goes on, and so many instructions are left.
    Left(u64),
}
