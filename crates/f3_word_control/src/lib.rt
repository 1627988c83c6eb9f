//! Instructions over words that move cells, tell where the next line is, and print.
#![tactic(auto)]

pub mod constructs;
pub mod dropping;
pub mod jumps;
pub mod operands;
pub mod printing;
