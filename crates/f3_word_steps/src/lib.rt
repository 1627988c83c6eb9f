//! A machine over words: instructions that know only the cells.
#![tactic(auto)]

pub mod cells;
