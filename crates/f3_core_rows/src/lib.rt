//! Programs by their Core, and what they print.
#![tactic(auto)]

pub mod rows;
