//! Array constructors, over words, in programs without allocatables.
#![tactic(auto)]

pub mod building;
mod taking;
pub mod writing;
