//! What each pass makes of small texts, case by case: what f3_rows compares beside what users see.
#![tactic(auto)]

mod answers;
pub mod cases;
mod programs;
mod steps;
