//! Copying words from one block to another.

ghost use Rattle.std.specs.Prelude.{◌≡◌, ◌≢◌, ◌+◌, ◌*◌, ◌≤◌, ◌<◌, ◌∷◌, pos, length, take, drop};
ghost use Rattle.f3_live_blocks.specs.Blocks.{IsLive, words_of, with_words};
ghost use Rattle.f3_objects.specs.Holds.{with_words_at};

use f3_heap::{BlockId, Blocks};

/// Copies so many words from a place of one block to a place of another.
pub(crate) fn copy_words<B: Blocks>(
    heap: &mut B,
    from: BlockId,
    from_at: usize,
    to: BlockId,
    to_at: usize,
    count: usize,
)
    requires from_live { IsLive (B.blocks heap.old) from }
    requires to_live { IsLive (B.blocks heap.old) to }
    requires different { from ≢ to }
    requires from_within { from_at + count ≤ length (words_of (B.blocks heap.old) from) }
    requires to_within { to_at + count ≤ length (words_of (B.blocks heap.old) to) }
    ensures written { let part = take count (drop from_at (words_of (B.blocks heap.old) from)) in
        B.blocks heap.new ≡ with_words (B.blocks heap.old) to (with_words_at (words_of (B.blocks heap.old) to) to_at part) }
    ensures kept { B.kept heap.new ≡ B.kept heap.old }
{
    let (source, target) = heap.pair(from, to);
    target[to_at..to_at + count].copy_from_slice(&source[from_at..from_at + count]);
}

/// Writes an allocatable's block, and the bounds of another allocatable of its rank.
pub(crate) fn link_copy<B: Blocks>(
    heap: &mut B,
    from: BlockId,
    from_at: usize,
    to: BlockId,
    to_at: usize,
    copy: BlockId,
    rank: usize,
)
    requires from_live { IsLive (B.blocks heap.old) from }
    requires to_live { IsLive (B.blocks heap.old) to }
    requires different { from ≢ to }
    requires from_within { from_at + (1 + 2 * rank) ≤ length (words_of (B.blocks heap.old) from) }
    requires to_within { to_at + (1 + 2 * rank) ≤ length (words_of (B.blocks heap.old) to) }
    ensures written { let dims = take (2 * rank) (drop (from_at + 1) (words_of (B.blocks heap.old) from)) in
        B.blocks heap.new ≡ with_words (B.blocks heap.old) to (with_words_at (words_of (B.blocks heap.old) to) to_at (pos copy ∷ dims)) }
    ensures positive { 0 < copy }
    ensures kept { B.kept heap.new ≡ B.kept heap.old }
{
    prove!(from_at < heap.length(from));
    prove!(to_at < heap.length(to));
    heap.write(to, to_at, copy.word());
    copy_words(heap, from, from_at + 1, to, to_at + 1, 2 * rank);
}
