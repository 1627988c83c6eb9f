//! Code of programs.
#![tactic(auto)]

pub mod places;
pub mod procedures;
pub mod program;
