//! Lines of code as they are emitted, the last first, and those of expressions, designators and arguments.
#![tactic(auto)]

pub mod emission;
pub mod line;
pub mod value;
