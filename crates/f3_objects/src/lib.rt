//! Objects in blocks.
#![tactic(auto)]

mod boxes;
mod copy;
mod elements;
mod free;
mod holder;
mod shift;
mod words;
mod zeros;

pub use boxes::unbox_tree;
pub use copy::{TreeFault, copy_tree};
pub use elements::{copy_contents, copy_elements, free_contents, free_elements};
pub use free::free_tree;
pub use shift::move_tree;
pub use zeros::clear;
