//! Variables in words of blocks, with blocks for what allocatables hold at any depth, as values in memory.
#![tactic(auto)]

pub mod reading;
