//! What a machine runs.

use f3_gen_values::emission::Emission;
use f3_program::program::Program;
use f3_room_places::types::Types;

/// How the variables of an activation stand in a block: at which words they begin, counted from 0, and how many words they have.
#[derive(Drop)]
pub struct Frame {
    pub starts: Vec<usize>,
    pub words: usize,
}

/// A program and the code that was emitted for it, its types with their tables, and how its variables stand: those that live for the
/// whole run, those of the main program, and those of each procedure.
#[derive(Clone, Copy)]
pub struct Scene<'a> {
    pub program: &'a Program,
    pub emission: &'a Emission,
    pub types: Types<'a>,
    pub statics: &'a Frame,
    pub main: &'a Frame,
    pub procedures: &'a [Frame],
}
