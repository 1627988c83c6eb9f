//! The requests that instructions make of a heap of a size, and how they are answered.
#![tactic(auto)]

pub mod answering;
mod asking;
mod extents;
mod given;
mod refusing;
mod words;
