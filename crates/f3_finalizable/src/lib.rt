//! Which derived types are finalizable: the least set of those with a final subroutine and of those with a component of
//! such a type (own rule; ISO/IEC 1539-1:2004, 4.5.5).
#![tactic(auto)]

mod holders;
mod marks;
pub mod settle;
