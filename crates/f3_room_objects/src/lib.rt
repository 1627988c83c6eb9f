//! Variables in words of blocks as the objects that `f3_objects` frees, copies and clears: what it does to their trees is done to the store.
#![tactic(auto)]

pub mod changes;
pub mod laws;
