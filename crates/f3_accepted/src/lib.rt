//! All rules together over the whole language: what is accepted, and the first break of what is not.
#![tactic(auto)]

pub mod check;
pub mod checked;
