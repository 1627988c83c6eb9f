//! ASSOCIATE constructs: their selectors, and what is known inside of them.
#![tactic(auto)]

pub mod entering;
mod exchanging;
pub mod selectors;
