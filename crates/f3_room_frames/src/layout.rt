//! Variables among the words of a block.

ghost use Rattle.std.specs.Prelude.{◌≤◌, ◌+◌};
ghost use Rattle.f3_room_frames.specs.Sound.{most_words};

use f3_program::declarations::{Base, Dimension};

/// A variable among the words of an activation: where its words begin, how many they are, its type, its rank and its bounds, and whether it
/// is an allocatable, whose words name the block of what it holds and tell that one's bounds (ISO/IEC 1539-1:2004, 6.3.1).
#[derive(Drop)]
pub struct Variable {
    pub offset: usize,
    pub words: usize,
    pub of: Base,
    pub rank: usize,
    pub bounds: Vec<Dimension>,
    pub is_allocatable: bool,
    pub ghost within: { offset + words ≤ most_words },
}

/// Variables whose words stand one after another, and how many words they have together.
#[derive(Drop)]
pub struct Layout {
    pub variables: Vec<Variable>,
    pub words: usize,
    pub ghost few: { words ≤ most_words },
}

/// An allocatable part of an object: which of the object's words is the first of its own, its rank, and the type of its elements, with how
/// many words each has.
#[derive(Clone, Copy)]
pub struct Holding {
    pub at: usize,
    pub rank: usize,
    pub of: Base,
    pub width: usize,
}
