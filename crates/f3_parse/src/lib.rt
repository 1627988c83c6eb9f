//! Sources, read as a syntax tree.
#![tactic(auto)]

mod advance;
pub mod parser;
