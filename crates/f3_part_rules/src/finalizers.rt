//! The procedures that the types of a specification part may name in FINAL.

use f3_finals::candidate::Candidate;

/// The procedures of a module, as far as the types of its specification part ask.
#[derive(Clone, Copy)]
pub struct Finalizers<'a> {
    /// The entity of the first.
    pub first: usize,
    /// What each of them could finalize.
    pub candidates: &'a [Option<Candidate>],
}
