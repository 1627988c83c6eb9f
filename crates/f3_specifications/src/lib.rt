//! The rules of phase 5 along specification parts, in which what is known grows (ISO/IEC 1539-1:2004, 2.2, 5.1).
#![tactic(auto)]

pub mod components;
pub mod declarations;
pub mod definitions;
