//! Derived types of the elaborated program: components and final subroutines (ISO/IEC 1539-1:2004, 4.5).
#![tactic(auto)]

mod definitions;
mod finals;
pub mod units;
