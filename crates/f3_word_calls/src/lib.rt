//! Calls of procedures and the ASSOCIATE construct, over words.
#![tactic(auto)]

pub mod associates;
pub mod bounds;
pub mod dummies;
mod ends;
pub mod operands;
pub mod returns;
