//! Reading tokens from left to right: signs, names and lists.
#![tactic(auto)]

pub mod laws;
pub mod lists;
pub mod names;
pub mod signs;
