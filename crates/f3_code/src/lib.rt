//! The code of programs: its instructions, what a machine does with them, and the code of each Core program.
#![tactic(auto)]

pub mod instruction;
