//! Source texts, as statements.
#![tactic(auto)]

pub mod cursor;
pub mod cut;
pub mod laws;
pub mod letter;
mod lines;
pub mod mode;
pub mod reader;
mod reading;
mod sources;
pub mod statement;
