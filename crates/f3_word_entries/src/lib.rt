//! Calls of procedures, over words: how an activation begins.
#![tactic(auto)]

mod beginning;
mod entering;
pub mod entries;
mod holding;
mod naming;
