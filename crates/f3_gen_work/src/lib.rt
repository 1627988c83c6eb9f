//! Code of the work that the language does beside what a statement says: objects that end, and assignments.
#![tactic(auto)]

pub mod transfer;
pub mod types;
pub mod work;
