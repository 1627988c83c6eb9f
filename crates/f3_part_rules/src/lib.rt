//! The rules of phase 5 along the units of a program, in which what is known grows (ISO/IEC 1539-1:2004, 2.2, 4.5.5, 5.1).
#![tactic(auto)]

pub mod finalizers;
pub mod members;
pub mod specifications;
