//! Executable statements: actions, and what begins and divides constructs.
#![tactic(auto)]

pub mod actions;
pub mod allocations;
pub mod constructs;
