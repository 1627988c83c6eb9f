//! The first break of phases 6 and 7 of the blocks of procedures and programs.
#![tactic(auto)]

pub mod blocks;
mod loops;
