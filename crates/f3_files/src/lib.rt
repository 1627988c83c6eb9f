//! The files of a command line: they are opened by their names, and read.
#![tactic(auto)]

pub mod files;
