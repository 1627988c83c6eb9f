//! What a name and what stands behind it mean: variables and their parts, references, structure constructors (ISO/IEC
//! 1539-1:2004, clauses 6, 7 and 12).
#![tactic(auto)]

pub mod intrinsics;
pub mod lists;
pub mod meant;
pub mod values;
pub mod variables;
