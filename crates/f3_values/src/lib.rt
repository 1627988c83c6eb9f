//! The values of constant expressions (ISO/IEC 1539-1:2004, 7.1.7).
#![tactic(auto)]

mod numbers;
mod operations;
pub mod scalars;
pub mod values;
