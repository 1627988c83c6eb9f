//! Statements before they are read.

use f3_places::source::Place;
use f3_rules::refusal::Refusal;

/// A statement of a source text: its bytes with continuations joined and comments dropped, from its
/// first byte that is no blank (3.3.1).
#[derive(Drop)]
pub struct RawStatement {
    pub bytes: Vec<u8>,
    /// The place of each byte; the blank of a join has the place of its `&`.
    pub places: Vec<Place>,
}

/// The statements of a list of sources before the first fault of their text, and that fault.
#[derive(Drop)]
pub struct Cut {
    pub statements: Vec<RawStatement>,
    /// A break of S1, S2 or S8.
    pub fault: Option<Refusal>,
}

/// Why a text is not read.
#[derive(Drop)]
pub enum TextFault {
    /// The first break of phase 1.
    Refused(Refusal),
    /// A growth of the host's memory was refused.
    Memory,
}
