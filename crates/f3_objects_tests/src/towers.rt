//! Types that each hold the one before.

use f3_desc::{Layout, Piece};
use std::alloc::{AllocError, Global};

/// An allocatable integer in types that each have one component, of the type before.
pub fn tower(alloc: Global, height: usize) -> Result<Layout, AllocError> {
    let mut pieces = vec![in alloc; Piece::Word, Piece::Allocatable { rank: 0, of: 0 }]?;
    for below in 1..height {
        let part = vec![in alloc; below]?;
        pieces.push(Piece::Record(part))?;
    }
    Layout::new(alloc, pieces)
}
