//! What is known of entities and of names by their numbers, before what the entities are (ISO/IEC 1539-1:2004, 5.1, 13.7, 16.5).
#![tactic(auto)]

pub mod holders;
pub mod intrinsics;
pub mod kinds;
