//! Actions as nodes of the elaborated program (ISO/IEC 1539-1:2004, 6.3, 7.4.1, 8.4, 9.5, 12.4).
#![tactic(auto)]

pub mod actions;
pub mod calls;
pub mod kinds;
pub mod prints;
pub mod requests;
pub mod values;
