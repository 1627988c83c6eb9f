//! Types, and what the rules on types say of expressions.
#![tactic(auto)]

pub mod said;
pub mod things;
pub mod types;
