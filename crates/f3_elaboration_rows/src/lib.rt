//! Trees of programs, and what the runs of their elaborated programs show.
#![tactic(auto)]

pub mod rows;
