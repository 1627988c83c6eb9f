//! All objects of an area take the same words.

ghost use Rattle.std.specs.Prelude.{◌≡◌, ◌+◌, ◌≤◌, ◌+ℤ◌, ℤ, pos, length};
ghost use Rattle.f3_live_blocks.specs.Blocks.{IsLive, words_of, with_words};
ghost use Rattle.f3_meaning_whole.specs.Shape.{shape_in};
ghost use Rattle.f3_rooms.specs.Forms.{words_for};
ghost use Rattle.f3_room_places.specs.Places.{HasTables, shapes};
ghost use Rattle.f3_room_levels.specs.Initial.{object_words, TypeCanBegin};
ghost use Rattle.f3_desc.specs.Inner.Congruent.{IsCongruent};
ghost use Rattle.f3_objects.specs.Holds.{with_words_at};
ghost use Rattle.f3_room_arrays.specs.Words.{AreInside, places_from};
ghost use Rattle.f3_word_copies.specs.Spread.{IsSource, source_words, spread_over};

use crate::initial::object_word;
use arrayvec::ArrayVec;
use f3_desc::descriptor::{Descriptor, Dim};
use f3_heap::{BlockId, Blocks};
use f3_program::declarations::Base;
use f3_room_arrays::fill;
use f3_room_places::types::{Types, words};

/// Words that objects take: one, or those of a block.
#[derive(Drop)]
pub(crate) enum Source<'a> {
    Word(i64),
    Block(BlockId),
    /// Those with which an object of a type begins.
    Initial(Types<'a>, Base),
}

/// The place a stride behind another, up to a multiple of 2 ^ 64.
fn place_behind(at: usize, stride: i64) -> usize
    ensures { IsCongruent (pos result) (pos at +ℤ stride) }
{
    at.wrapping_add(stride.cast_unsigned() as usize)
}

/// Writes the words with which an object of a type begins, from one of a block on.
fn write_initial<B: Blocks>(heap: &mut B, types: Types<'_>, of: Base, block: BlockId, at: usize)
    requires tables { HasTables types }
    requires fit { TypeCanBegin (shape_in (shapes types) of) }
    requires live { IsLive (B.blocks heap.old) block }
    requires within { at + words_for (shape_in (shapes types) of) ≤ length (words_of (B.blocks heap.old) block) }
    ensures written { B.blocks heap.new ≡ with_words (B.blocks heap.old) block (with_words_at (words_of (B.blocks heap.old) block) at (object_words (shape_in (shapes types.entry) of))) }
    ensures kept { B.kept heap.new ≡ B.kept heap.old }
{
    prove!(heap.length(block) <= usize::MAX);
    for number in 0..words(types, of) {
        heap.write(block, at + number, object_word(types, of, number));
    }
}

/// An object takes the words.
fn write_one<B: Blocks>(heap: &mut B, source: &Source<'_>, block: BlockId, at: usize)
    requires live { IsLive (B.blocks heap.old) block }
    requires source { IsSource (B.blocks heap.old) block source.now }
    requires within { at + length (source_words (B.blocks heap.old) source.now) ≤ length (words_of (B.blocks heap.old) block) }
    ensures written { B.blocks heap.new ≡ with_words (B.blocks heap.old) block (with_words_at (words_of (B.blocks heap.old) block) at (source_words (B.blocks heap.old) source.now)) }
    ensures kept { B.kept heap.new ≡ B.kept heap.old }
{
    match *source {
        Source::Word(word) => heap.write(block, at, word),
        Source::Initial(types, of) => write_initial(heap, types, of, block, at),
        Source::Block(from) => {
            let words = heap.length(from);
            let place = Descriptor {
                block,
                offset: at,
                dims: ArrayVec::new(),
            };
            fill(heap, from, 0, &place, words);
        }
    }
}

/// The objects that these dimensions tell of, from a place on, take the words.
pub(crate) fn spread<B: Blocks>(
    heap: &mut B,
    source: &Source<'_>,
    block: BlockId,
    dims: &[Dim],
    at: usize,
)
    requires live { IsLive (B.blocks heap.old) block }
    requires source { IsSource (B.blocks heap.old) block source.now }
    requires inside { (z : ℤ) × IsCongruent (pos at) z × AreInside (length (words_of (B.blocks heap.old) block)) (length (source_words (B.blocks heap.old) source.now)) (places_from z dims.now) }
    ensures written { (z : ℤ) → IsCongruent (pos at) z → AreInside (length (words_of (B.blocks heap.old) block)) (length (source_words (B.blocks heap.old) source.now)) (places_from z dims.now)
        → B.blocks heap.new ≡ with_words (B.blocks heap.old) block (spread_over (words_of (B.blocks heap.old) block) (source_words (B.blocks heap.old) source.now) (places_from z dims.now)) }
    ensures kept { B.kept heap.new ≡ B.kept heap.old }
{
    prove!(heap.length(block) <= usize::MAX);
    let Some((last, others)) = dims.split_last() else {
        write_one(heap, source, block, at);
        return;
    };
    let mut place = at;
    for _each in 0..last.extent {
        spread(heap, source, block, others, place);
        place = place_behind(place, last.stride);
    }
}
