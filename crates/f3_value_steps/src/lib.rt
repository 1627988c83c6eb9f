//! Instructions that make values of values.
#![tactic(auto)]

pub mod constructors;
mod finish;
pub mod operations;
pub mod queries;
pub mod results;
pub mod structures;
