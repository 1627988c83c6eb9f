//! Arrays and sections are assigned.

ghost use Rattle.std.specs.Prelude.{◌≡◌, ◌≢◌, ◌+◌, ◌*◌, ◌≤◌, ◌<◌, ◌^◌, pos, List, length};
ghost use Rattle.f3_live_blocks.specs.Blocks.{IsLive, words_of, with_words};
ghost use Rattle.f3_meaning_whole.specs.Value.{spread};
ghost use Rattle.f3_meaning_whole.specs.Shape.{Shape};
ghost use Rattle.f3_meaning_whole.specs.Store.{Path};
ghost use Rattle.f3_desc.specs.Descriptor.{places, progression};
ghost use Rattle.f3_rooms.specs.Held.{Row, Empty};
ghost use Rattle.f3_rooms.specs.Values.{object};
ghost use Rattle.f3_rooms.specs.Rooms.{Rooms};
ghost use Rattle.f3_room_arrays.specs.Words.{AreInside, copied};
ghost use Rattle.f3_room_arrays.specs.Elements.{row, held_row};
ghost use Rattle.f3_room_arrays.specs.Changes.{LieWithin, AreObjects, AreVacant, AreLoose, PutsAll, TakesAll, helds};

use crate::runs::{first_and_others, further, size};
use crate::words::{Run, copy_run};
use f3_desc::descriptor::Descriptor;
use f3_heap::{BlockId, Blocks};

/// Copies words of a block to the elements of an array or of a section, each of so many words, in array element order: from a place on,
/// and for each element so many words further.
fn spread_words<B: Blocks>(
    heap: &mut B,
    from: BlockId,
    from_at: usize,
    step: usize,
    elements: &Descriptor,
    words: usize,
)
    requires within { LieWithin (B.blocks heap.old) elements.now words }
    requires live { IsLive (B.blocks heap.old) from }
    requires apart { from ≢ elements.now.block }
    requires few { 0 < words → length (places elements.now) < 2 ^ 64 }
    requires short { step < 2 ^ 63 }
    requires room { AreInside (length (words_of (B.blocks heap.old) from)) words (progression (pos from_at) (pos step) (length (places elements.now))) }
    requires behind { from_at + length (places elements.now) * step ≤ length (words_of (B.blocks heap.old) from) }
    ensures written { B.blocks heap.new ≡ with_words (B.blocks heap.old) elements.now.block
        (copied words (words_of (B.blocks heap.old) elements.now.block) (words_of (B.blocks heap.old) from)
        (places elements.now) (progression (pos from_at) (pos step) (length (places elements.now)))) }
    ensures kept { B.kept heap.new ≡ B.kept heap.old }
{
    prove!(from_at <= heap.length(from));
    prove!(heap.length(elements.block) <= usize::MAX);
    let (first, others) = first_and_others(elements.dims.as_slice());
    if words == 0 || first.extent == 0 {
        return;
    }
    let mut at = from_at;
    for number in 0..size(others) {
        let source = Run {
            block: from,
            at,
            stride: step as i64,
        };
        let target = Run {
            block: elements.block,
            at: further(others, elements.offset, number),
            stride: first.stride,
        };
        copy_run(heap, source, target, first.extent, words);
        at += first.extent * step;
    }
}

/// The elements of an array or of a section, each of so many words, take the words from a place of another block on, one behind another
/// in array element order (ISO/IEC 1539-1:2004, 7.4.1.3). This takes no memory. Where they held nothing, they then hold what the objects
/// at that place hold, which have moved there.
pub fn scatter<B: Blocks>(
    heap: &mut B,
    from: BlockId,
    from_at: usize,
    elements: &Descriptor,
    words: usize,
)
    requires within { LieWithin (B.blocks heap.old) elements.now words }
    requires live { IsLive (B.blocks heap.old) from }
    requires apart { from ≢ elements.now.block }
    requires short { words < 2 ^ 63 }
    requires room { from_at + length (places elements.now) * words ≤ length (words_of (B.blocks heap.old) from) }
    ensures put { (ts : List Shape) (x : Rooms) (s : Shape) (ps : List Path) → AreObjects ts (B.blocks heap.old) x elements.now s ps words
        → PutsAll ts (B.blocks heap.old) (B.blocks heap.new) x ps (row (B.blocks heap.old) s (length ps) from from_at) }
    ensures moved { (ts : List Shape) (x : Rooms) (s : Shape) (ps : List Path) (hs : Row) → AreVacant ts (B.blocks heap.old) x elements.now s ps words
        → AreLoose (B.blocks heap.old) x s (length ps) from from_at hs
        → TakesAll ts (B.blocks heap.old) (B.blocks heap.new) x elements.now s ps (helds (length ps) hs) (held_row (B.blocks heap.old) s (length ps) from from_at hs) }
    ensures written { B.blocks heap.new ≡ with_words (B.blocks heap.old) elements.now.block
        (copied words (words_of (B.blocks heap.old) elements.now.block) (words_of (B.blocks heap.old) from)
        (places elements.now) (progression (pos from_at) (pos words) (length (places elements.now)))) }
    ensures kept { B.kept heap.new ≡ B.kept heap.old }
{
    prove!(from_at <= heap.length(from));
    spread_words(heap, from, from_at, words, elements, words);
}

/// The elements of an array or of a section, each of so many words, all take the words at a place of another block (ISO/IEC
/// 1539-1:2004, 7.4.1.3). This takes no memory.
pub fn fill<B: Blocks>(
    heap: &mut B,
    from: BlockId,
    from_at: usize,
    elements: &Descriptor,
    words: usize,
)
    requires within { LieWithin (B.blocks heap.old) elements.now words }
    requires live { IsLive (B.blocks heap.old) from }
    requires apart { from ≢ elements.now.block }
    requires few { length (places elements.now) < 2 ^ 64 }
    requires room { from_at + words ≤ length (words_of (B.blocks heap.old) from) }
    ensures put { (ts : List Shape) (x : Rooms) (s : Shape) (ps : List Path) → AreObjects ts (B.blocks heap.old) x elements.now s ps words
        → PutsAll ts (B.blocks heap.old) (B.blocks heap.new) x ps (spread (length ps) (object (B.blocks heap.old) s from from_at Empty)) }
    ensures written { B.blocks heap.new ≡ with_words (B.blocks heap.old) elements.now.block
        (copied words (words_of (B.blocks heap.old) elements.now.block) (words_of (B.blocks heap.old) from)
        (places elements.now) (progression (pos from_at) (pos 0) (length (places elements.now)))) }
    ensures kept { B.kept heap.new ≡ B.kept heap.old }
{
    spread_words(heap, from, from_at, 0, elements, words);
}
