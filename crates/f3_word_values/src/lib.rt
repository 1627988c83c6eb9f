//! Instructions over words that make values of values.
#![tactic(auto)]

pub mod bounds;
mod finish;
pub mod operations;
pub mod queries;
pub mod values;
