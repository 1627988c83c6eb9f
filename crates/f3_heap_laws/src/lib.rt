//! What heaps of blocks are, by definitions and laws, and the words that a block takes.
#![tactic(auto)]

mod account;

pub use account::{fits, size_of_block};
