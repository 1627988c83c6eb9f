//! Tokens as the grammar sees them, and reading them from left to right.
#![tactic(auto)]

pub mod constant;
pub mod error;
pub mod item;
pub mod items;
pub mod keyword;
pub mod law;
pub mod line;
pub mod names;
pub mod reading;
pub mod sign;
