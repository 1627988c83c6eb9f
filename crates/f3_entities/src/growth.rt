//! What is known along the declarations of a program.

use f3_declared::scenery::Scenery;
use f3_typed_parts::known::Known;

/// What is known along the declarations of a program, and grows there.
#[derive(Drop)]
pub struct Growth<'a> {
    /// What is known of names; the values of named constants grow.
    pub known: Known<'a>,
    pub scenery: Scenery<'a>,
    /// The cells of the types so far, by their entities.
    pub cells: Vec<Option<u64>>,
    /// The entity that is declared next.
    pub next: usize,
}
