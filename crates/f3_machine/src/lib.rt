//! The machine: it runs the code of a program, instruction by instruction.
#![tactic(auto)]

mod cells;
mod lookout;
pub mod machine;
mod part;
mod planning;
pub mod printing;
pub mod start;
mod step;
mod table;
mod turns;
