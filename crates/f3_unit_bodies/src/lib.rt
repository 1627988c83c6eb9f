//! The rules of phases 6 and 7 along the blocks of a program's units and procedures (ISO/IEC 1539-1:2004, 2.2).
#![tactic(auto)]

pub mod bodies;
