//! The elaborated program of a tree: definitions alone.
#![tactic(auto)]

pub mod nodes {}
