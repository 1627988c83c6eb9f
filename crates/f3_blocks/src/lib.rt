//! Blocks: executable statements and constructs in one another.
#![tactic(auto)]

pub mod builder;
pub mod error;
pub mod laws;
