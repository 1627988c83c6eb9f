//! Bounds, sizes and initializers of declared names (ISO/IEC 1539-1:2004, 5.1, 5.1.2.5, 7.1.7).
#![tactic(auto)]

pub mod bounds;
pub mod counts;
pub mod initial;
pub mod sizes;
