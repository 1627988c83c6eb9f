//! Values in memory as variables in words of blocks, with blocks for what allocatables hold at any depth.
#![tactic(auto)]

mod bounds;
mod holders;
pub mod writing;
