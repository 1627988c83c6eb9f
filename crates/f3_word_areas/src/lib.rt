//! The words of objects: copies of what tells of them, whole variables and components, elements and sections. No memory is taken.
#![tactic(auto)]

pub mod bounds;
pub mod copies;
pub mod parts;
pub mod sections;
pub mod values;
