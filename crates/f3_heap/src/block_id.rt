//! Names of blocks.

ghost use Rattle.std.specs.Prelude.{◌≡◌, ◌↔◌, ◌<◌, ◌+◌, ◌^◌, ℕ, pos, ◌<ℤ◌, IfSome, IsSome};

use std::marker::Model;

/// The name of a block in its heap: a positive number. In one region of words it is the block's place
/// plus 1.
#[derive(Clone, Copy, Debug, PartialEq, Eq)]
pub struct BlockId {
    word: usize,
}

impl Model for BlockId {
    ghost use Rattle.std.specs.Prelude.{ℕ, ◌<◌, ◌^◌};

    ghost Value = { ℕ };

    ghost view = { λ b. b.word };

    ghost invariant = { λ b. (0 < b.word) × (b.word < 2 ^ 63) };

    ghost inverse = { λ w. record { word = w } };
}

impl BlockId {
    /// The word that stands for this name in other blocks. It is positive.
    pub fn word(self) -> i64
        ensures value { result ≡ pos self }
        ensures positive { 0 < self }
    {
        self.word as i64
    }

    /// The name that a word stands for, or `None` where the word is not positive.
    pub fn of(word: i64) -> Option<BlockId>
        ensures named { IfSome result (λ b. word ≡ pos b) }
        ensures positive { IsSome result ↔ (pos 0 <ℤ word) }
    {
        if word > 0 {
            Some(BlockId {
                word: word as usize,
            })
        } else {
            None
        }
    }

    /// The name of the block at a place.
    pub(crate) fn at(place: usize) -> BlockId
        requires { place + 1 < 2 ^ 63 }
        ensures { result ≡ place + 1 }
    {
        BlockId { word: place + 1 }
    }

    /// The place, counted from 0.
    pub(crate) fn place(self) -> usize
        ensures { result + 1 ≡ self }
    {
        self.word - 1
    }
}
