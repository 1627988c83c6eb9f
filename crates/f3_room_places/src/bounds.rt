//! Bounds of arrays.

ghost use Rattle.std.specs.Prelude.{◌≡◌, ◌<◌, ◌+◌, ℕ, pos, List, length, nat_lt, slice_index_or, slice_get};
ghost use Rattle.std.specs.Option.{option_map};
ghost use Rattle.f3_live_blocks.specs.Blocks.{Live, IsLive, words_of};
ghost use Rattle.f3_data.specs.Values.{span_of};
ghost use Rattle.f3_meaning_whole.specs.Value as m;
ghost use Rattle.f3_meaning_whole.specs.Value.{count};
ghost use Rattle.f3_meaning_whole.specs.Shape.{spans_declared};
ghost use Rattle.f3_room_places.specs.Places.{AreBounds, AreTold};

use crate::place::Bounds;
use f3_data::value::Span;
use f3_heap::{BlockId, Blocks};
use f3_program::declarations::Dimension;

/// The extent that a word tells.
fn extent_in<B: Blocks>(heap: &B, block: BlockId, at: usize) -> u64
    requires live { IsLive (B.blocks heap.now) block }
    requires within { at < length (words_of (B.blocks heap.now) block) }
    ensures { (n : ℕ) → slice_index_or (words_of (B.blocks heap.now) block) at (pos 0) ≡ pos n → result ≡ n }
{
    let word = heap.read(block, at);
    if word < 0 { 0 } else { word as u64 }
}

/// Whether an array has an element of a number, counted from 0 in array element order (ISO/IEC 1539-1:2004, 6.2.2.2).
fn has_declared(dimensions: &[Dimension], element: usize) -> bool
    ensures { result ≡ nat_lt element (count (spans_declared dimensions.now)) }
{
    let Some((first, others)) = dimensions.split_first() else {
        return element == 0;
    };
    first.extent != 0 && has_declared(others, element / first.extent as usize)
}

/// The same of bounds that words tell.
fn has_told<B: Blocks>(heap: &B, block: BlockId, at: usize, rank: usize, element: usize) -> bool
    requires { (ss : List m.Span) × AreTold (B.blocks heap.now) block at rank ss }
    ensures { (ss : List m.Span) → AreTold (B.blocks heap.now) block at rank ss → result ≡ nat_lt element (count ss) }
{
    if rank == 0 {
        return element == 0;
    }
    prove!(at < heap.length(block));
    let extent = extent_in(heap, block, at + 1);
    extent != 0 && has_told(heap, block, at + 2, rank - 1, element / extent as usize)
}

/// The same of bounds of an array of a rank.
pub(crate) fn has_element<B: Blocks>(
    heap: &B,
    rank: usize,
    bounds: &Bounds<'_>,
    element: usize,
) -> bool
    requires array { 0 < rank }
    requires bounds { (ss : List m.Span) × AreBounds (B.blocks heap.now) rank bounds.now ss }
    ensures { (ss : List m.Span) → AreBounds (B.blocks heap.now) rank bounds.now ss → result ≡ nat_lt element (count ss) }
{
    match *bounds {
        Bounds::Declared(dimensions) => has_declared(dimensions, element),
        Bounds::Told(block, at) => has_told(heap, block, at, rank, element),
    }
}

/// How many dimensions an array of a rank has, and 0 of one object.
pub(crate) fn rank_of(rank: usize, bounds: &Bounds<'_>) -> usize
    ensures { (live : Live) (ss : List m.Span) → AreBounds live rank bounds.now ss → result ≡ length ss }
{
    if rank == 0 {
        return 0;
    }
    match *bounds {
        Bounds::Declared(dimensions) => dimensions.len(),
        Bounds::Told(_, _) => rank,
    }
}

/// A dimension that is declared.
fn declared_span(dimensions: &[Dimension], dimension: usize) -> Option<Span>
    ensures { option_map span_of result ≡ slice_get (spans_declared dimensions.now) dimension }
{
    match dimensions.get(dimension) {
        Some(span) => Some(Span {
            lower: span.lower,
            extent: span.extent,
        }),
        None => None,
    }
}

/// A dimension that words tell.
fn told_span<B: Blocks>(
    heap: &B,
    block: BlockId,
    at: usize,
    rank: usize,
    dimension: usize,
) -> Option<Span>
    requires { (ss : List m.Span) × AreTold (B.blocks heap.now) block at rank ss }
    ensures { (ss : List m.Span) → AreTold (B.blocks heap.now) block at rank ss → option_map span_of result ≡ slice_get ss dimension }
{
    if dimension >= rank {
        return None;
    }
    prove!(at < heap.length(block));
    Some(Span {
        lower: heap.read(block, at + 2 * dimension),
        extent: extent_in(heap, block, at + 2 * dimension + 1),
    })
}

/// The bounds in a dimension, counted from 0, of an array of a rank, if it has so many.
pub(crate) fn span_of<B: Blocks>(
    heap: &B,
    rank: usize,
    bounds: &Bounds<'_>,
    dimension: usize,
) -> Option<Span>
    requires { (ss : List m.Span) × AreBounds (B.blocks heap.now) rank bounds.now ss }
    ensures { (ss : List m.Span) → AreBounds (B.blocks heap.now) rank bounds.now ss → option_map span_of result ≡ slice_get ss dimension }
{
    if rank == 0 {
        return None;
    }
    match *bounds {
        Bounds::Declared(dimensions) => declared_span(dimensions, dimension),
        Bounds::Told(block, at) => told_span(heap, block, at, rank, dimension),
    }
}
