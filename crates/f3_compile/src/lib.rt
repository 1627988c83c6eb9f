//! Compiles programs of the whole language, from source bytes to the program that runs and to the text of its code.
#![tactic(auto)]

pub mod code;
pub mod compile;
pub mod compiled;
