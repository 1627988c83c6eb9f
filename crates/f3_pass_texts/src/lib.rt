//! What the passes from sources to names make of small texts, as texts: what f3_pass_rows compares.
#![tactic(auto)]

pub mod expressions;
pub mod names;
pub mod sources;
pub mod statements;
