//! Rule T4: what the procedures of a module could finalize, and the names in FINAL (ISO/IEC 1539-1:2004, 4.5.5).
#![tactic(auto)]

pub mod candidate;
pub mod finals;
