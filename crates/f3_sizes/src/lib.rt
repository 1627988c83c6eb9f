//! How many cells the stacks of a program's activations need, told from its code, and how many words its variables have.
#![tactic(auto)]

pub mod answer;
mod effect;
pub mod needs;
mod part;
pub mod words;
