//! Calls of procedures, and the ASSOCIATE construct.
#![tactic(auto)]

pub mod activations;
pub mod arguments;
pub mod associates;
pub mod calls;
pub mod frames;
pub mod heres;
pub mod returns;
