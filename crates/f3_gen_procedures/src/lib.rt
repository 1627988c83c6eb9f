//! Code of procedures and of the main program, and of the routines of types.
#![tactic(auto)]

pub mod body;
pub mod ends;
pub mod routines;
