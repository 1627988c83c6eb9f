//! The program f3 over its words, its files and its writers.
#![tactic(auto)]

pub mod program;
mod report;
pub mod work;
