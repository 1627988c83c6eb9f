//! Code of actions: allocation and deallocation, MOVE_ALLOC, assignment, PRINT; and of what SELECT CASE and ASSOCIATE begin with.
#![tactic(auto)]

pub mod actions;
pub mod output;
pub mod selecting;
pub mod storage;
