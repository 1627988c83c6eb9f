//! Long lists of calls on heaps: against a filter of all words, and on two heaps side by side.
#![tactic(auto)]

#[cfg(test)]
mod calls;
#[cfg(test)]
mod heap;
#[cfg(test)]
mod notes;
#[cfg(test)]
mod once;
#[cfg(test)]
mod raw;
#[cfg(test)]
mod rooms;
mod turns;

pub use turns::{give_front, take_back, turn_front};
