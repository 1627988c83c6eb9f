//! What the words of an object are.

ghost use Rattle.std.specs.Prelude.{◌≡◌, ◌<◌, ◌+◌, IsTrue, IfOk, map, length, []};
ghost use Rattle.f3_desc.specs.Shape.{is_layout, shapes_from, shape_of, whole, width, has_holder};

use crate::piece::Piece;
use crate::widths::{holder_of, width_of};
use std::alloc::{AllocError, Global};

/// The pieces of an object, numbered from 0. The last one is the whole.
#[derive(Debug, Drop)]
pub struct Layout {
    pieces: Vec<Piece>,
    widths: Vec<usize>,
    holders: Vec<bool>,
    ghost sound: { IsTrue (is_layout pieces.items) },
    ghost sized: { widths.items ≡ map width (shapes_from [] pieces.items) },
    ghost marked: { holders.items ≡ map has_holder (shapes_from [] pieces.items) },
}

impl Layout {
    ghost use Rattle.f3_desc.specs.Layout.{pieces_of, piece_count, shapes, shape_in, NamesBefore};

    /// The layout of these pieces.
    ///
    /// # Errors
    ///
    /// `AllocError` where the host refused memory. The list is then dropped.
    pub fn new(alloc: Global, pieces: Vec<Piece>) -> Result<Layout, AllocError>
        requires { IsTrue (is_layout pieces.items) }
        ensures { IfOk result (λ l. pieces_of l ≡ pieces.items) }
    {
        let mut widths = Vec::new(alloc);
        let mut holders = Vec::new(alloc);
        for piece in &pieces {
            let width = width_of(piece, &widths);
            let holder = holder_of(piece, &holders);
            widths.push(width)?;
            holders.push(holder)?;
        }
        Ok(Layout {
            pieces,
            widths,
            holders,
        })
    }

    /// The number of words of the whole.
    pub fn words(&self) -> usize
        ensures { result ≡ width (whole (pieces_of self.now)) }
    {
        self.widths[self.widths.len() - 1]
    }

    /// The number of the last piece, which is the whole.
    pub fn last(&self) -> usize
        ensures number { result + 1 ≡ piece_count self.now }
        ensures shape { shape_in self.now result ≡ whole (pieces_of self.now) }
    {
        self.pieces.len() - 1
    }

    /// The piece with this number.
    pub fn piece(&self, number: usize) -> &Piece
        requires { number < piece_count self.now }
        ensures shape { shape_of (shapes self.now) result.now ≡ shape_in self.now number }
        ensures earlier { NamesBefore number result.now }
    {
        &self.pieces[number]
    }

    /// The number of words of the piece with this number.
    pub fn words_of(&self, number: usize) -> usize
        requires { number < piece_count self.now }
        ensures { result ≡ width (shape_in self.now number) }
    {
        self.widths[number]
    }

    /// Whether some word of the piece with this number tells of an allocation.
    pub fn holds_allocatable(&self, number: usize) -> bool
        requires { number < piece_count self.now }
        ensures { result ≡ has_holder (shape_in self.now number) }
    {
        self.holders[number]
    }
}
