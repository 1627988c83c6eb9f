//! The states of the machine that runs code, in memory.
#![tactic(auto)]

pub mod cell;
pub mod copies;
pub mod look;
pub mod many;
pub mod scene;
pub mod stacks;
pub mod state;
