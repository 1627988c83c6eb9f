//! A machine over words: a run of a program without allocatables, whose values lie in blocks of a heap.
#![tactic(auto)]

pub mod ended;
pub mod rooms;
pub mod running;
mod step;
mod table;
pub mod whole;
