//! Hashed tables that speak of names alone: what the USE statements of a scope say, by module, which names of a scope are
//! private, the modules by their names, and places by names.
#![tactic(auto)]

pub mod choosing;
pub mod modules;
pub mod places;
pub mod selecting;
