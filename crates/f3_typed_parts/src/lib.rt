//! What is said of operators and of designators, and their breaks of the rules on types (ISO/IEC 1539-1:2004, 6.1, 6.2, 7.1).
#![tactic(auto)]

pub mod designators;
pub mod known;
pub mod noted;
pub mod operands;
pub mod rows;
