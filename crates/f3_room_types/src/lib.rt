//! How objects of the types of a program are laid out: layouts by which what they hold is freed, copied and cleared.
#![tactic(auto)]

pub mod laws;
pub mod layouts;
mod pieces;
