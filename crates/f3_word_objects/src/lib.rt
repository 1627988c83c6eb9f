//! Instructions that locate objects, over words, in programs without allocatables.
#![tactic(auto)]

pub mod asking;
pub mod locating;
pub mod naming;
pub mod selecting;
pub mod shapes;
mod taking;
