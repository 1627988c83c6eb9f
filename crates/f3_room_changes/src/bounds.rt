//! The words of an allocatable.

ghost use Rattle.std.specs.Prelude.{◌≡◌, ◌+◌, ◌*◌, ◌≤◌, ◌<◌, false, length};
ghost use Rattle.f3_live_blocks.specs.Blocks.{IsLive, words_of};
ghost use Rattle.f3_meaning_whole.specs.Exec.{too_many};
ghost use Rattle.f3_data.specs.Values.{spans_of};
ghost use Rattle.f3_rooms.specs.Laws.{with_bounds, with_holder};

use f3_data::value::Span;
use f3_heap::{BlockId, Blocks};

/// Writes a lower bound and an extent for each dimension, from a word of a block on.
fn write_bounds<B: Blocks>(heap: &mut B, block: BlockId, at: usize, spans: &[Span])
    requires live { IsLive (B.blocks heap.old) block }
    requires within { at + 2 * length spans.now ≤ length (words_of (B.blocks heap.old) block) }
    requires counted { too_many (spans_of spans.now) ≡ false }
    ensures written { B.blocks heap.new ≡ with_bounds (B.blocks heap.old) block at (spans_of spans.now) }
    ensures kept { B.kept heap.new ≡ B.kept heap.old }
{
    prove!(at <= heap.length(block));
    let mut place = at;
    for span in spans {
        heap.write(block, place, span.lower);
        heap.write(block, place + 1, span.extent as i64);
        place += 2;
    }
}

/// Writes the words of an allocatable that holds what stands in another block.
pub(crate) fn write_holder<B: Blocks>(
    heap: &mut B,
    block: BlockId,
    at: usize,
    held: BlockId,
    spans: &[Span],
)
    requires live { IsLive (B.blocks heap.old) block }
    requires within { at + (1 + 2 * length spans.now) ≤ length (words_of (B.blocks heap.old) block) }
    requires counted { too_many (spans_of spans.now) ≡ false }
    ensures written { B.blocks heap.new ≡ with_holder (B.blocks heap.old) block at held (spans_of spans.now) }
    ensures kept { B.kept heap.new ≡ B.kept heap.old }
    ensures positive { 0 < held }
{
    prove!(at < heap.length(block));
    heap.write(block, at, held.word());
    write_bounds(heap, block, at + 1, spans);
}
