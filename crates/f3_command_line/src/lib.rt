//! The command line of f3, as clap reads it.
#![tactic(auto)]

pub mod command;
