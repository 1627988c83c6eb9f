//! The code of a program.

use crate::line::Line;

/// The code of a program: its lines, the numbers of the lines with which its procedures begin, by their numbers, and of those
/// with which the routines of its types begin, of the newest type first.
#[derive(Drop)]
pub struct Emission {
    pub lines: Vec<Line>,
    pub procedures: Vec<usize>,
    pub routines: Vec<usize>,
}
