//! Levels of variables in words of blocks of a heap: how they begin with their initial values, and how they end.
#![tactic(auto)]

mod beginning;
mod blank;
mod ending;
mod fitting;
mod giving;
pub mod laws;
mod sizes;
mod writing;

pub use beginning::begin;
pub use ending::{end, end_laid};
pub use fitting::can_begin;
pub use sizes::room_of;
pub use writing::{write_declared, write_initial};
