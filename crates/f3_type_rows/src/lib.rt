//! Programs, and what refuses them by the rules on types, shapes, constants and definitions.
#![tactic(auto)]

pub mod rows;
