//! Shapes of arrays.
#![tactic(auto)]

pub mod shapes;
