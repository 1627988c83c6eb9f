//! ASSOCIATE constructs that begin, over words.
#![tactic(auto)]

pub mod beginning;
mod holding;
mod naming;
