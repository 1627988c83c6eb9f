//! The numbers of a program, and of a procedure or the main program as it is entered.
#![tactic(auto)]

pub mod entering;
pub mod filling;
pub mod members;
pub mod parts;
pub mod program;
pub mod units;
pub mod wanted;
