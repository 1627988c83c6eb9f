//! What is declared of all variables, dummies and results of a program, along its units and procedures
//! (ISO/IEC 1539-1:2004, 5.1, 12.5.2).
#![tactic(auto)]

pub mod declarations;
pub mod dummies;
pub mod locals;
pub mod places;
pub mod statics;
