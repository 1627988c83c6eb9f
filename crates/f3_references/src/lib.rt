//! References to functions and structure constructors, by what is said of their arguments (ISO/IEC 1539-1:2004, 12.4, 13.7, 4.5.9).
#![tactic(auto)]

pub mod arguments;
pub mod constructors;
pub mod intrinsics;
pub mod settling;
