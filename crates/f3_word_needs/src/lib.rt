//! How much room the stacks of a machine over words want, known before a run.
#![tactic(auto)]

pub mod laws;
pub mod needs;
