//! The forms of a statement.
#![tactic(auto)]

pub mod ends;
pub mod statements;
