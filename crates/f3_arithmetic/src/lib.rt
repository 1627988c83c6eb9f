//! Operations on scalars, as a run makes them: whole numbers of both kinds, and truth values.
#![tactic(auto)]

pub mod numbers;
pub mod operators;
pub mod turns;
