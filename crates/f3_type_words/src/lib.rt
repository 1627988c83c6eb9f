//! How many words objects of the types of a program have, and where their components begin.
#![tactic(auto)]

pub mod table;
pub mod tabling;
pub mod words;
