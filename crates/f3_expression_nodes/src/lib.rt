//! Expressions and designators of the tree as nodes of the elaborated program (ISO/IEC 1539-1:2004, clauses 6 and 7).
#![tactic(auto)]

mod chains;
pub mod expressions;
pub mod literals;
pub mod types;
