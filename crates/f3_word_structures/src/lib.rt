//! Structure constructors, over words, in programs without allocatables.
#![tactic(auto)]

pub mod building;
mod checking;
mod finding;
mod writing;
