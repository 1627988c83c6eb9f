//! Where a statement stands.

use crate::numbers::Numbers;
use f3_typed_parts::known::{Known, Position};

/// What is known where a statement or an expression stands: what its names mean, and the numbers of the entities.
#[derive(Clone, Copy)]
pub struct Surroundings<'a> {
    pub known: &'a Known<'a>,
    pub at: Position,
    pub numbers: &'a Numbers,
    /// How many objects are lent: the dummies, and the associate names of the constructs around it.
    pub lent: usize,
    /// The character constants of the program, by their numbers.
    pub texts: &'a [Vec<u8>],
}
