//! What the entities of a program are, and the first break of the rules on types, shapes, constants and definitions
//! (ISO/IEC 1539-1:2004, 4 to 7, 12 and 13).
#![tactic(auto)]

pub mod beginning;
mod declaring;
pub mod naming;
pub mod table;
pub mod typed;

pub use f3_unit_rules::firsts;
