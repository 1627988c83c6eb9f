//! How a machine finds parts of variables in words of blocks of a heap, reads them and writes them, with no allocation.
#![tactic(auto)]

pub mod bounds;
pub mod finding;
pub mod place;
pub mod reading;
mod stepping;
pub mod types;
pub mod writing;
