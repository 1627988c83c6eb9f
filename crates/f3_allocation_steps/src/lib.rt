//! Instructions about what is allocated.
#![tactic(auto)]

pub mod allocating;
pub mod moving;
pub mod states;
pub mod work;
