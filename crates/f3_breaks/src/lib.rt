//! Breaks at names and at keywords, and the first of those along a list.
#![tactic(auto)]

mod along;
mod place;

pub use along::first_among;
pub use place::{at, at_keyword};
