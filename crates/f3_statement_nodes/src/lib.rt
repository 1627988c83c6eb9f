//! Statements and constructs as nodes of the elaborated program (ISO/IEC 1539-1:2004, 8.1).
#![tactic(auto)]

pub mod blocks;
