//! Results of functions, over words, in programs without allocatables.
#![tactic(auto)]

pub mod results;
