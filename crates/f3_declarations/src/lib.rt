//! The statements of specification parts, and the headers of procedures, read from tokens.
#![tactic(auto)]

pub mod access;
pub mod attributes;
pub mod declarations;
mod kinds;
pub mod procedures;
pub mod uses;

pub use f3_shapes::shapes;
