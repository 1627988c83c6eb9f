//! What is said of expressions and designators, and the first break of the rules on types, in one pass.
#![tactic(auto)]

pub mod designators;
pub mod senses;
pub mod typing;
