//! Pieces of layouts, one after another.

ghost use Rattle.std.specs.Prelude.{◌≡◌, ◌≤◌, ◌<◌, ◌*◌, [], IsTrue, IfOk, MatchOption, map, length, nat_lt};
ghost use Rattle.std.specs.List.{list_all};
ghost use Rattle.f3_desc.specs.Shape.{Holder, Plain, Times, are_pieces, is_piece, most_words, row, shape_at, shape_of, width};
ghost use Rattle.f3_desc.specs.Layout.{pieces_of};
ghost use Rattle.f3_room_types.specs.Pieces.{Has, IsAt, layouts_of};

use f3_desc::{Layout, Piece};
use f3_type_words::tabling::MOST_WORDS;
use std::alloc::{AllocError, Global};

/// Pieces, of which each names earlier ones, and how many words each has.
#[derive(Drop)]
pub(crate) struct Pieces {
    pub(crate) pieces: Vec<Piece>,
    widths: Vec<usize>,
    ghost sound: { IsTrue (are_pieces [] pieces.items) },
    ghost sized: { widths.items ≡ map width (layouts_of pieces.items) },
}

impl Pieces {
    /// A word alone.
    pub(crate) fn new(alloc: Global) -> Result<Pieces, AllocError>
        ensures { IfOk result (λ r. IsAt (layouts_of r.pieces.items) Plain 0) }
    {
        let mut pieces = Pieces {
            pieces: Vec::new(alloc),
            widths: Vec::new(alloc),
        };
        pieces.push(Piece::Word, 1)?;
        Ok(pieces)
    }

    /// One piece more, of so many words.
    fn push(&mut self, piece: Piece, words: usize) -> Result<usize, AllocError>
        requires piece { IsTrue (is_piece (layouts_of self.old.pieces.items) piece) }
        requires words { words ≡ width (shape_of (layouts_of self.old.pieces.items) piece) }
        ensures number { IfOk result (λ k. k ≡ length self.old.pieces.items) }
        ensures has { IfOk result (Has self.old.pieces.items self.new.pieces.items (shape_of (layouts_of self.old.pieces.items) piece)) }
    {
        let number = self.pieces.len();
        self.widths.reserve(1)?;
        self.pieces.push(piece)?;
        self.widths.push_reserved(words);
        Ok(number)
    }

    /// An allocatable.
    pub(crate) fn allocatable(&mut self, rank: usize, of: usize) -> Result<usize, AllocError>
        requires rank { rank ≤ 7 }
        requires earlier { of < length (layouts_of self.old.pieces.items) }
        ensures { IfOk result (Has self.old.pieces.items self.new.pieces.items (Holder rank (shape_at (layouts_of self.old.pieces.items) of))) }
    {
        self.push(Piece::Allocatable { rank, of }, 1 + 2 * rank)
    }

    /// An array of so many elements: none where it has too many words.
    pub(crate) fn array(&mut self, count: usize, of: usize) -> Result<Option<usize>, AllocError>
        requires { of < length (layouts_of self.old.pieces.items) }
        ensures { IfOk result (λ r. MatchOption r (most_words < count * width (shape_at (layouts_of self.old.pieces.items) of))
            (Has self.old.pieces.items self.new.pieces.items (Times count (shape_at (layouts_of self.old.pieces.items) of)))) }
    {
        match count.checked_mul(self.widths[of]) {
            Some(words) if words <= MOST_WORDS => {
                Ok(Some(self.push(Piece::Array { count, of }, words)?))
            }
            _ => Ok(None),
        }
    }

    /// The words of parts one after another: none where they are too many.
    fn row_words(&self, parts: &[usize]) -> Option<usize>
        requires { IsTrue (list_all (λ k. nat_lt k (length (layouts_of self.now.pieces.items))) parts.now) }
        ensures { MatchOption result (most_words < width (row (map (shape_at (layouts_of self.now.pieces.items)) parts.now)))
            (λ n. (n ≡ width (row (map (shape_at (layouts_of self.now.pieces.items)) parts.now))) × (n ≤ most_words)) }
    {
        let mut words: usize = 0;
        for part in parts {
            let more = self.widths[*part];
            if more > MOST_WORDS - words {
                return None;
            }
            words += more;
        }
        Some(words)
    }

    /// The components of a type in order: none where they have too many words.
    pub(crate) fn record(&mut self, parts: Vec<usize>) -> Result<Option<usize>, AllocError>
        requires { IsTrue (list_all (λ k. nat_lt k (length (layouts_of self.old.pieces.items))) parts.items) }
        ensures { IfOk result (λ r. MatchOption r (most_words < width (row (map (shape_at (layouts_of self.old.pieces.items)) parts.items)))
            (λ k. Has self.old.pieces.items self.new.pieces.items (row (map (shape_at (layouts_of self.old.pieces.items)) parts.items)) k
            × (width (row (map (shape_at (layouts_of self.old.pieces.items)) parts.items)) ≤ most_words))) }
    {
        match self.row_words(&parts) {
            Some(words) => Ok(Some(self.push(Piece::Record(parts), words)?)),
            None => Ok(None),
        }
    }

    /// The layout of these pieces.
    pub(crate) fn layout(self, alloc: Global) -> Result<Layout, AllocError>
        requires { 0 < length self.pieces.items }
        ensures { IfOk result (λ l. pieces_of l ≡ self.pieces.items) }
    {
        Layout::new(alloc, self.pieces)
    }
}
