//! What a machine runs.

use f3_gen_values::emission::Emission;
use f3_program::program::Program;

/// A program and the code that was emitted for it.
#[derive(Clone, Copy)]
pub struct Scene<'a> {
    pub program: &'a Program,
    pub emission: &'a Emission,
}
