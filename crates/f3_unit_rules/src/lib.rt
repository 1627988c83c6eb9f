//! The rules of phase 5 along the units of a program: modules and the main program, in an order in which used modules come first
//! (ISO/IEC 1539-1:2004, 2.2, 11.2).
#![tactic(auto)]

pub mod firsts;
pub mod units;
