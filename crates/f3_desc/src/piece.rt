//! One part of an object.

/// One part of an object, by pieces that stand earlier in the list.
#[derive(Debug, Drop)]
pub enum Piece {
    /// An integer or a logical.
    Word,
    /// An allocatable: its block's word, and a lower bound and an extent for each dimension.
    Allocatable { rank: usize, of: usize },
    /// The components of a derived type in order.
    Record(Vec<usize>),
    /// So many elements in array element order.
    Array { count: usize, of: usize },
}
