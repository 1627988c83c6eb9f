//! Instructions on objects.
#![tactic(auto)]

pub mod acts;
pub mod assigning;
pub mod counting;
pub mod locating;
pub mod naming;
pub mod picking;
pub mod places;
pub mod subscripts;
mod taking;
