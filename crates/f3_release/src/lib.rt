//! Elaborated programs let go of, in little of the stack however long their chains of operators and of ELSE IF are: what
//! a derived drop does by a call within a call for each is done by loops.
#![tactic(auto)]

pub mod expression;
pub mod program;
pub mod statement;
