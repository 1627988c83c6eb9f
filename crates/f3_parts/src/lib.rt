//! Specification parts, statement by statement.
#![tactic(auto)]

pub mod builder;
pub mod laws;
