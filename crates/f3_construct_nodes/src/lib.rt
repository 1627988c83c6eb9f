//! Constructs as nodes of the elaborated program: their heads, and their branches and cases (ISO/IEC 1539-1:2004, 8.1).
#![tactic(auto)]

pub mod branches;
pub mod cases;
pub mod constructs;
pub mod nodes;
