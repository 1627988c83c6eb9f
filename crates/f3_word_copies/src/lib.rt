//! Variables are changed, over words, in programs without allocatables.
#![tactic(auto)]

pub mod assigning;
pub mod clearing;
pub mod counting;
mod elements;
pub mod fitting;
mod initial;
mod putting;
pub mod setting;
mod spreading;
