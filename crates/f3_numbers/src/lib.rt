//! The numbers of variables, procedures and types of a program, by their entities.
#![tactic(auto)]

pub mod numbers;
pub mod surroundings;
