//! What is known where an executable statement stands.
#![tactic(auto)]

pub mod site;
