//! The names in specification parts: those to which they refer, and those to which they give an access or PROTECTED.
#![tactic(auto)]

pub mod listing;
pub mod naming;
