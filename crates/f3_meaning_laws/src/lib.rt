//! Laws of what programs mean.
#![tactic(auto)]

pub mod laws;
