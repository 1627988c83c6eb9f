//! Instructions that take cells and values, and no store.
#![tactic(auto)]

pub mod constructs;
pub mod dummies;
pub mod jumps;
mod lists;
pub mod values;
pub mod work;
