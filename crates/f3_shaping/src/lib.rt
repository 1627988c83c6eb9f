//! Operations on values of every type and shape, as a run makes them.
#![tactic(auto)]

pub mod bounds;
pub mod elements;
pub mod fitting;
pub mod initial;
pub mod operators;
pub mod printing;
