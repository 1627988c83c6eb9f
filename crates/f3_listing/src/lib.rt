//! The text that shows the code of a program.
#![tactic(auto)]

mod lines;
mod operation;
mod table;

pub use lines::listing;
