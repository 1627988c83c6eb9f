//! Arrays of words in blocks: their descriptors, and how their words are laid out.
#![tactic(auto)]

pub mod descriptor;
pub mod laws;
mod layout;
mod piece;
mod widths;

pub use layout::Layout;
pub use piece::Piece;
