//! The tokens of a statement.
#![tactic(auto)]

mod fault;
pub mod law;
mod length;
pub mod scanner;
pub mod token;
pub mod value;
