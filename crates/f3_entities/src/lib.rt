//! What is known along the declarations of a program, and the rules of phase 5 on declared names (ISO/IEC 1539-1:2004, 5.1).
#![tactic(auto)]

pub mod entities;
pub mod growing;
pub mod growth;
