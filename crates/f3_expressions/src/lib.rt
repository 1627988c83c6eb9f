//! Expressions, designators and argument lists, read from tokens (ISO/IEC 1539-1:2004, clause 7.1).
#![tactic(auto)]

pub mod arguments;
pub mod designators;
pub mod expressions;
pub mod levels;
pub mod marks;
pub mod primaries;
