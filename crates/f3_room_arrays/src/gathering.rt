//! Arrays and sections are read.

ghost use Rattle.std.specs.Prelude.{◌≡◌, ◌≢◌, ◌+◌, ◌*◌, ◌<◌, ◌^◌, ◌≤◌, pos, List, length};
ghost use Rattle.f3_live_blocks.specs.Blocks.{IsLive, words_of, with_words};
ghost use Rattle.f3_meaning_whole.specs.Shape.{Shape};
ghost use Rattle.f3_meaning_whole.specs.Store.{Path};
ghost use Rattle.f3_desc.specs.Descriptor.{places, progression};
ghost use Rattle.f3_rooms.specs.Rooms.{Rooms};
ghost use Rattle.f3_room_arrays.specs.Words.{copied};
ghost use Rattle.f3_room_arrays.specs.Changes.{LieWithin, AreObjects, Reads};

use crate::runs::{first_and_others, further, size};
use crate::words::{Run, copy_run};
use f3_desc::descriptor::Descriptor;
use f3_heap::{BlockId, Blocks};

/// Copies the elements of an array or of a section, each of so many words, to a place of another block, one behind another in array
/// element order.
fn gather_words<B: Blocks>(
    heap: &mut B,
    elements: &Descriptor,
    words: usize,
    to: BlockId,
    to_at: usize,
)
    requires within { LieWithin (B.blocks heap.old) elements.now words }
    requires live { IsLive (B.blocks heap.old) to }
    requires apart { to ≢ elements.now.block }
    requires short { words < 2 ^ 63 }
    requires room { to_at + length (places elements.now) * words ≤ length (words_of (B.blocks heap.old) to) }
    ensures written { B.blocks heap.new ≡ with_words (B.blocks heap.old) to
        (copied words (words_of (B.blocks heap.old) to) (words_of (B.blocks heap.old) elements.now.block)
        (progression (pos to_at) (pos words) (length (places elements.now))) (places elements.now)) }
    ensures kept { B.kept heap.new ≡ B.kept heap.old }
{
    prove!(to_at <= heap.length(to));
    prove!(heap.length(elements.block) <= usize::MAX);
    let (first, others) = first_and_others(elements.dims.as_slice());
    if words == 0 || first.extent == 0 {
        return;
    }
    let mut at = to_at;
    for number in 0..size(others) {
        let source = Run {
            block: elements.block,
            at: further(others, elements.offset, number),
            stride: first.stride,
        };
        let target = Run {
            block: to,
            at,
            stride: words as i64,
        };
        copy_run(heap, source, target, first.extent, words);
        at += first.extent * words;
    }
}

/// Copies the elements of an array or of a section, each of so many words, to a place of another block, one behind another in array
/// element order (ISO/IEC 1539-1:2004, 6.2.2.2). This takes no memory.
pub fn gather<B: Blocks>(
    heap: &mut B,
    elements: &Descriptor,
    words: usize,
    to: BlockId,
    to_at: usize,
)
    requires within { LieWithin (B.blocks heap.old) elements.now words }
    requires live { IsLive (B.blocks heap.old) to }
    requires apart { to ≢ elements.now.block }
    requires short { words < 2 ^ 63 }
    requires room { to_at + length (places elements.now) * words ≤ length (words_of (B.blocks heap.old) to) }
    ensures read { (ts : List Shape) (x : Rooms) (s : Shape) (ps : List Path) → AreObjects ts (B.blocks heap.old) x elements.now s ps words
        → Reads ts (B.blocks heap.old) (B.blocks heap.new) x s ps to to_at }
    ensures written { B.blocks heap.new ≡ with_words (B.blocks heap.old) to
        (copied words (words_of (B.blocks heap.old) to) (words_of (B.blocks heap.old) elements.now.block)
        (progression (pos to_at) (pos words) (length (places elements.now))) (places elements.now)) }
    ensures kept { B.kept heap.new ≡ B.kept heap.old }
{
    gather_words(heap, elements, words, to, to_at);
}
