//! References to objects, and what is read and changed through them.
#![tactic(auto)]

pub mod changes;
pub mod dummies;
pub mod elements;
pub mod names;
pub mod parts;
pub mod pins;
pub mod reaches;
pub mod reads;
