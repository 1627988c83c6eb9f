//! Runs programs of the whole language, from source bytes to output bytes.
#![tactic(auto)]

pub mod end;
pub mod run;
