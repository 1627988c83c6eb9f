//! What a name of a scope leads to, as types.
#![tactic(auto)]

pub mod lookup;
