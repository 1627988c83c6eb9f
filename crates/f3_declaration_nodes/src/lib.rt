//! Declared objects of the elaborated program: shapes, initial values, components (ISO/IEC 1539-1:2004, 4.5, 5.1).
#![tactic(auto)]

pub mod components;
pub mod declared;
pub mod initial;
pub mod shapes;
pub mod variables;
pub mod whole;
