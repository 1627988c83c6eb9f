//! What one statement is, apart from the tokens that spell it and from how statements make units.
#![tactic(auto)]

pub mod form;
