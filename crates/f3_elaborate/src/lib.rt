//! From a checked tree to the elaborated program (ISO/IEC 1539-1:2004, clause 2).
#![tactic(auto)]

mod beginning;
pub mod elaborate;
mod heads;
mod mains;
mod procedures;
mod programs;
mod units;
