//! Objects take a value.

ghost use Rattle.std.specs.Prelude.{◌≡◌, ◌<◌, ◌≢◌, ◌*◌, ◌/◌, true, false, length, take, pos};
ghost use Rattle.f3_live_blocks.specs.Blocks.{IsLive, words_of, with_words};
ghost use Rattle.f3_program.specs.declared.program.Program.{Program};
ghost use Rattle.f3_meaning_whole.specs.Value.{Value};
ghost use Rattle.f3_meaning_whole.specs.Reference.{Reference};
ghost use Rattle.f3_meaning_whole.specs.Shape.{initial_of};
ghost use Rattle.f3_word_cells.specs.Areas.{shape_for};
ghost use Rattle.f3_desc.specs.Descriptor.{places, progression};
ghost use Rattle.f3_desc.specs.Laws.{size_of};
ghost use Rattle.f3_rooms.specs.Rooms.{Rooms};
ghost use Rattle.f3_room_places.specs.Places.{HasTables};
ghost use Rattle.f3_room_arrays.specs.Words.{copied};
ghost use Rattle.f3_room_arrays.specs.Changes.{LieWithin};
ghost use Rattle.f3_word_copies.specs.Spread.{IsSource, source_words, spread_over, fewer_of};
ghost use Rattle.f3_word_copies.specs.Puts.{CanTake, CanBeginAt, Takes};

use crate::elements::take_elements;
use crate::initial::word_of;
use crate::spreading::{Source, spread};
use f3_desc::descriptor::{Descriptor, Dim};
use f3_heap::{BlockId, Blocks};
use f3_room_places::types::{Types, words};
use f3_word_cells::cell::{Area, Datum};

/// Whether an array has elements; what has no dimensions is one object.
fn has_elements(dims: &[Dim]) -> bool
    ensures some { result ≡ true → 0 < size_of dims.now }
    ensures none { result ≡ false → size_of dims.now ≡ 0 }
{
    let Some((first, others)) = dims.split_first() else {
        return true;
    };
    first.extent > 0 && has_elements(others)
}

/// All objects take the same words.
fn take_source<B: Blocks>(heap: &mut B, elements: &Descriptor, source: &Source<'_>)
    requires within { 0 < size_of elements.now.dims.items → LieWithin (B.blocks heap.old) elements.now (length (source_words (B.blocks heap.old) source.now)) }
    requires source { 0 < size_of elements.now.dims.items → IsSource (B.blocks heap.old) elements.now.block source.now }
    ensures none { size_of elements.now.dims.items ≡ 0 → B.blocks heap.new ≡ B.blocks heap.old }
    ensures some { 0 < size_of elements.now.dims.items
        → B.blocks heap.new ≡ with_words (B.blocks heap.old) elements.now.block
        (spread_over (words_of (B.blocks heap.old) elements.now.block) (source_words (B.blocks heap.old) source.now) (places elements.now)) }
    ensures kept { B.kept heap.new ≡ B.kept heap.old }
{
    if has_elements(&elements.dims) {
        spread(
            heap,
            source,
            elements.block,
            &elements.dims,
            elements.offset,
        );
    }
}

/// Elements of so many words take those of an array, one after another.
fn take_array<B: Blocks>(heap: &mut B, from: BlockId, elements: &Descriptor, words: usize)
    requires within { 0 < size_of elements.now.dims.items → LieWithin (B.blocks heap.old) elements.now words }
    requires live { IsLive (B.blocks heap.old) from }
    requires apart { 0 < size_of elements.now.dims.items → from ≢ elements.now.block }
    ensures none { size_of elements.now.dims.items * words ≡ 0 → B.blocks heap.new ≡ B.blocks heap.old }
    ensures some { 0 < size_of elements.now.dims.items → 0 < words → let count = fewer_of (size_of elements.now.dims.items) (length (words_of (B.blocks heap.old) from) / words) in
        B.blocks heap.new ≡ with_words (B.blocks heap.old) elements.now.block
        (copied words (words_of (B.blocks heap.old) elements.now.block) (words_of (B.blocks heap.old) from)
        (take count (places elements.now)) (progression (pos 0) (pos words) count)) }
    ensures kept { B.kept heap.new ≡ B.kept heap.old }
{
    if words > 0 && has_elements(&elements.dims) {
        take_elements(heap, from, elements, words);
    }
}

/// The objects of an area take a value: an array's elements in order, or one value for all (ISO/IEC 1539-1:2004, 7.4.1.3).
pub(crate) fn put<B: Blocks>(heap: &mut B, types: Types<'_>, area: &Area, datum: &Datum)
    requires tables { HasTables types }
    requires can { (p : Program) × (x : Rooms) × (r : Reference) × (v : Value) × CanTake p types (B.blocks heap.old) x area.now r datum.now v }
    ensures takes { (p : Program) (x : Rooms) (r : Reference) (v : Value) → CanTake p types.entry (B.blocks heap.old) x area.now r datum.now v → Takes p (B.blocks heap.old) (B.blocks heap.new) x r v }
    ensures kept { B.kept heap.new ≡ B.kept heap.old }
{
    match datum {
        Datum::Scalar(constant) => {
            take_source(heap, &area.elements, &Source::Word(word_of(*constant)));
        }
        Datum::Block(value) if value.elements.dims.is_empty() => {
            take_source(heap, &area.elements, &Source::Block(value.elements.block));
        }
        Datum::Block(value) => {
            let size = words(types, area.of);
            take_array(heap, value.elements.block, &area.elements, size);
        }
    }
}

/// Each object of an area begins as one of its type does (12.4.1.7).
pub(crate) fn begin<B: Blocks>(heap: &mut B, types: Types<'_>, area: &Area)
    requires tables { HasTables types }
    requires can { (p : Program) × (x : Rooms) × (r : Reference) × CanBeginAt p types (B.blocks heap.old) x area.now r }
    ensures takes { (p : Program) (x : Rooms) (r : Reference) → CanBeginAt p types.entry (B.blocks heap.old) x area.now r → Takes p (B.blocks heap.old) (B.blocks heap.new) x r (initial_of (shape_for p area.now.of)) }
    ensures kept { B.kept heap.new ≡ B.kept heap.old }
{
    take_source(heap, &area.elements, &Source::Initial(types, area.of));
}
