//! Laws on the breaks of phases 5 to 7: of which phases they are, and how constructs are counted.
#![tactic(auto)]

pub mod laws;
