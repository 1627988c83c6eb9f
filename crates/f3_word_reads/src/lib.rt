//! Variables are read, over words, in programs without allocatables.
#![tactic(auto)]

mod packing;
pub mod reading;
pub mod scalars;
pub mod taking;
