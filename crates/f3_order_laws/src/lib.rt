//! Laws on the breaks of phases 5 to 7, with no run of a pass: the order in which the units are taken is no matter.
#![tactic(auto)]

pub mod laws;
