//! An allocatable with its block.

ghost use Rattle.std.specs.Prelude.{◌≡◌, ◌+◌, ◌*◌, ◌<◌, ◌≤◌, ◌∷◌, pos, length};
ghost use Rattle.f3_live_blocks.specs.Blocks.{IsLive, words_of, with_words};
ghost use Rattle.f3_objects.specs.Holds.{with_words_at};
ghost use Rattle.f3_objects_tests.specs.Grows.{dims_of};

use f3_heap::{BlockId, Blocks};

/// Writes the block of an allocatable of rank 0 or 1, and its bounds from 1 to `count`.
pub(crate) fn link<B: Blocks>(
    heap: &mut B,
    block: BlockId,
    at: usize,
    inner: BlockId,
    rank: usize,
    count: usize,
)
    requires live { IsLive (B.blocks heap.old) block }
    requires ranked { rank < 2 }
    requires few { count < 4 }
    requires within { at + (1 + 2 * rank) ≤ length (words_of (B.blocks heap.old) block) }
    ensures written { let linked = pos inner ∷ dims_of rank count in
        B.blocks heap.new ≡ with_words (B.blocks heap.old) block (with_words_at (words_of (B.blocks heap.old) block) at linked) }
    ensures positive { 0 < inner }
{
    prove!(at < heap.length(block));
    heap.write(block, at, inner.word());
    if rank == 1 {
        heap.write(block, at + 1, 1);
        heap.write(block, at + 2, count as i64);
    }
}
