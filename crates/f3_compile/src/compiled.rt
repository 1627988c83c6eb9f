//! Programs that can be run.

use f3_program::program::Program;
use f3_release::program::release;

/// A program that was accepted and can be run.
pub struct Compiled {
    /// In it each name is replaced by what it means.
    pub program: Program,
}

impl Drop for Compiled {
    fn drop(self) {
        let Compiled { program } = self;
        release(program);
    }
}
