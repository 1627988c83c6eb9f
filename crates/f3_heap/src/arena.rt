//! A heap's region, and what is known of the blocks in it.

use crate::hints::CLASSES;
use f3_raw::Region;

/// What a heap knows of its blocks, apart from their words.
///
/// `size` is the number of words in the region, and stands for no place. `first` is the place of the
/// first free block. `hints` has a free block for each width, before which none is as wide. From `end`
/// on no block lies, and `used` words lie in live blocks.
#[derive(Drop)]
pub(crate) struct Book {
    pub(crate) size: usize,
    pub(crate) first: usize,
    pub(crate) hints: [usize; CLASSES],
    pub(crate) end: usize,
    pub(crate) used: usize,
}

/// A region of words with the places of its free blocks.
///
/// The book lies in memory of its own, so an arena has four words, and is soon moved.
#[derive(Drop)]
pub(crate) struct Arena {
    pub(crate) region: Region,
    pub(crate) book: Box<Book>,
}
