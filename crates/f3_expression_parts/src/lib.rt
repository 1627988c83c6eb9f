//! Nodes of expressions from the nodes of their parts (ISO/IEC 1539-1:2004, clauses 6, 7 and 12.4).
#![tactic(auto)]

pub mod arguments;
pub mod given;
pub mod operators;
pub mod selections;
