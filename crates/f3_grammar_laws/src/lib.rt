//! What tokens spell is spelled in one way: laws on the grammar of expressions and statements, with no run of a reader.
#![tactic(auto)]

pub mod laws;
