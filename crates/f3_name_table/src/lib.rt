//! The text that shows what each program unit sees.
#![tactic(auto)]

mod lines;
mod table;

pub use table::name_table;
