//! How many words of a heap the variables of a store take: as many as the values of the store ask for, so that nothing leaks.
#![tactic(auto)]

pub mod laws;
