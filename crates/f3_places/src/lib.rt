//! Sources, and places in them.
#![tactic(auto)]

pub mod source;
