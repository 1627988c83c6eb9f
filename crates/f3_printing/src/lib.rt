//! Scalars as PRINT writes them.
#![tactic(auto)]

pub mod scalar;
