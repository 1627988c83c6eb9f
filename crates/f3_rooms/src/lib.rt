//! Variables in words of blocks of a heap, with blocks of their own for what allocatables hold, at whatever depth: what such words are,
//! and what changes of them do.
#![tactic(auto)]

pub mod laws;
pub mod ways;
