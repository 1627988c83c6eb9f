//! What declarations make of names, and the rules on specification parts that need no values (ISO/IEC 1539-1:2004, 4.5, 5.1, 12.6).
#![tactic(auto)]

pub mod asking;
pub mod attributes;
pub mod bools;
pub mod conflicts;
pub mod names;
pub mod scenery;
pub mod specifiers;
pub mod spots;
