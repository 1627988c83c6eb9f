//! Heaps of blocks of words, behind one trait.
#![tactic(auto)]

mod arena;
mod block_id;
mod blocks;
mod full_at;
mod heap_blocks;
mod hints;
pub mod laws;
mod plain;
mod raw;
mod segments;

pub use block_id::BlockId;
pub use blocks::{Blocks, Pinned, TakeFault};
pub use full_at::FullAt;
pub use plain::PlainBlocks;
pub use raw::RawHeap;
