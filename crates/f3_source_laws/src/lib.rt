//! Sources spell one tree at most: laws on what spells a program, with no run of a parser.
#![tactic(auto)]

pub mod laws;
