//! Runs the code of programs without allocatables over words.
#![tactic(auto)]

pub mod run;
