//! What takes the output of a run, and knows whether it has refused bytes.
#![tactic(auto)]

pub mod output;
