//! Program units, statement by statement.
#![tactic(auto)]

pub mod builder;
pub mod laws;
pub mod scope;
