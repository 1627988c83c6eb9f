//! Laws on programs that break no rule on names: their parts have distinct names, and what is looked up is an entity.
#![tactic(auto)]

pub mod laws;
