//! The rules on types, shapes, constants and definitions: definitions alone.
#![tactic(auto)]

pub mod definition;
