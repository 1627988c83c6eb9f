//! One allocation of 64-bit words, uninitialized above a frontier.
#![tactic(auto)]

mod memory;
mod region;

pub use region::Region;
