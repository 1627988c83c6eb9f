//! What each entity of a program is: objects, derived types and procedures (ISO/IEC 1539-1:2004, 4.5, 5.1, 12.3).
#![tactic(auto)]

pub mod constructs;
pub mod entries;
pub mod names;
pub mod natures;
pub mod objects;
pub mod parts;
pub mod procedures;
