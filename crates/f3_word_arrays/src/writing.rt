//! Values are written into a block.

ghost use Rattle.std.specs.Prelude.{◌≡◌, ◌≢◌, ◌+◌, ◌*◌, ◌≤◌, length};
ghost use Rattle.f3_live_blocks.specs.Blocks.{IsLive, words_of, with_words};
ghost use Rattle.f3_objects.specs.Holds.{with_words_at};
ghost use Rattle.f3_room_levels.specs.Initial.{word_of};
ghost use Rattle.f3_word_cells.specs.Does.{HasNoMemory, HasNoRoom};
ghost use Rattle.f3_word_arrays.specs.Items.{IsApart, datum_words};
ghost use Rattle.f3_word_arrays.specs.Room.{TookRoom};

use f3_heap::{BlockId, Blocks, TakeFault};
use f3_meaning_whole::run_error::RunError;
use f3_program::declarations::Constant;
use f3_word_cells::cell::Datum;
use f3_word_cells::state::Stop;

/// A new block for so many elements, each of so many words. No heap has one of 2 to the 63 words or more.
///
/// `Stop::Failed` where the heap has no room, `Stop::Memory` where the host refused memory for it.
pub(crate) fn take_room<B: Blocks>(
    heap: &mut B,
    count: usize,
    words: usize,
) -> Result<BlockId, Stop>
    ensures took { TookRoom (HasNoRoom B.has_room heap.old) (HasNoMemory B.allows (B.kept heap.old) (B.blocks heap.old)) (B.blocks heap.old) (B.blocks heap.new) (count * words) result }
    ensures kept { B.kept heap.new ≡ B.spent (B.kept heap.old) }
{
    match heap.take(count.saturating_mul(words)) {
        Ok(block) => {
            heap.blocks_are_short();
            Ok(block)
        }
        Err(TakeFault::Full) => Err(Stop::Failed(RunError::HeapHasNoRoom)),
        Err(TakeFault::Memory) => Err(Stop::Memory),
    }
}

/// The word of a scalar: 1 is `.TRUE.`, 0 `.FALSE.` (own rule).
fn word_of(constant: Constant) -> i64
    ensures { result ≡ word_of constant }
{
    match constant {
        Constant::Number(number) => number,
        Constant::Truth(truth) => i64::from(truth),
    }
}

/// Copies all words of one block to a place of another.
fn copy_words<B: Blocks>(heap: &mut B, from: BlockId, to: BlockId, at: usize)
    requires from_live { IsLive (B.blocks heap.old) from }
    requires to_live { IsLive (B.blocks heap.old) to }
    requires different { from ≢ to }
    requires within { at + length (words_of (B.blocks heap.old) from) ≤ length (words_of (B.blocks heap.old) to) }
    ensures copied { B.blocks heap.new ≡ with_words (B.blocks heap.old) to (with_words_at (words_of (B.blocks heap.old) to) at (words_of (B.blocks heap.old) from)) }
    ensures kept { B.kept heap.new ≡ B.kept heap.old }
{
    let (source, target) = heap.pair(from, to);
    target[at..at + source.len()].copy_from_slice(source);
}

/// The words of a value are written from one of a block on.
pub fn write_item<B: Blocks>(heap: &mut B, block: BlockId, at: usize, datum: &Datum)
    requires live { IsLive (B.blocks heap.old) block }
    requires apart { IsApart (B.blocks heap.old) block datum.now }
    requires within { at + length (datum_words (B.blocks heap.old) datum.now) ≤ length (words_of (B.blocks heap.old) block) }
    ensures written { B.blocks heap.new ≡ with_words (B.blocks heap.old) block (with_words_at (words_of (B.blocks heap.old) block) at (datum_words (B.blocks heap.old) datum.now)) }
    ensures kept { B.kept heap.new ≡ B.kept heap.old }
{
    match datum {
        Datum::Scalar(constant) => heap.write(block, at, word_of(*constant)),
        Datum::Block(area) => copy_words(heap, area.elements.block, block, at),
    }
}
