//! What forbids the definition of what an expression designates (ISO/IEC 1539-1:2004, 16.5.7).
#![tactic(auto)]

pub mod definable;
