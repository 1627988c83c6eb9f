//! The rules of the refusal table, the order of breaks, and refusals.
#![tactic(auto)]

pub mod breaks;
pub mod refusal;
pub mod rule;
