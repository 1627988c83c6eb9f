//! Arrays and sections of variables in words of blocks of a heap: their elements are read into words one behind another, or take the
//! values of such words. No memory of the host is taken.
#![tactic(auto)]

mod copying;
mod gathering;
pub mod laws;
mod runs;
mod scattering;
mod words;

pub use copying::gather_copies;
pub use gathering::gather;
pub use scattering::{fill, scatter};
