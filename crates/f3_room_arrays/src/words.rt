//! Words of one block are copied to another.

ghost use Rattle.std.specs.Prelude.{◌≡◌, ◌≢◌, ◌+◌, ◌*◌, ◌≤◌, ◌+ℤ◌, ◌*ℤ◌, true, pos, length, take, drop};
ghost use Rattle.f3_live_blocks.specs.Blocks.{IsLive, words_of, with_words};
ghost use Rattle.f3_desc.specs.Inner.Congruent.{IsCongruent};
ghost use Rattle.f3_desc.specs.Descriptor.{progression};
ghost use Rattle.f3_objects.specs.Holds.{with_words_at};
ghost use Rattle.f3_room_arrays.specs.Words.{AreInside, copied};

use f3_heap::{BlockId, Blocks};

/// So many elements in a block: the place of the first, and how many words two neighbours are apart.
#[derive(Clone, Copy)]
pub(crate) struct Run {
    pub(crate) block: BlockId,
    pub(crate) at: usize,
    pub(crate) stride: i64,
}

/// Copies so many words from a place of one block to a place of another.
fn copy_words<B: Blocks>(
    heap: &mut B,
    from: BlockId,
    from_at: usize,
    to: BlockId,
    to_at: usize,
    count: usize,
)
    requires from_live { IsLive (B.blocks heap.old) from }
    requires to_live { IsLive (B.blocks heap.old) to }
    requires different { from ≢ to }
    requires from_within { from_at + count ≤ length (words_of (B.blocks heap.old) from) }
    requires to_within { to_at + count ≤ length (words_of (B.blocks heap.old) to) }
    ensures written { let part = take count (drop from_at (words_of (B.blocks heap.old) from)) in
        B.blocks heap.new ≡ with_words (B.blocks heap.old) to (with_words_at (words_of (B.blocks heap.old) to) to_at part) }
    ensures kept { B.kept heap.new ≡ B.kept heap.old }
{
    let (source, target) = heap.pair(from, to);
    target[to_at..to_at + count].copy_from_slice(&source[from_at..from_at + count]);
}

/// Whether elements of so many words follow on one another.
fn is_dense(run: &Run, words: usize) -> bool
    ensures { result ≡ true → run.now.stride ≡ pos words }
{
    run.stride > 0 && run.stride.unsigned_abs() == words as u64
}

/// The place so many strides behind another, up to a multiple of 2 ^ 64.
pub(crate) fn behind(at: usize, count: usize, stride: i64) -> usize
    ensures { IsCongruent (pos result) (pos at +ℤ (pos count *ℤ stride)) }
{
    at.wrapping_add(count.wrapping_mul(stride.cast_unsigned() as usize))
}

/// Copies so many elements of one block to as many places of another, in their order.
pub(crate) fn copy_run<B: Blocks>(heap: &mut B, from: Run, to: Run, count: usize, words: usize)
    requires from_live { IsLive (B.blocks heap.old) from.block }
    requires to_live { IsLive (B.blocks heap.old) to.block }
    requires different { from.block ≢ to.block }
    requires from_inside { AreInside (length (words_of (B.blocks heap.old) from.block)) words (progression (pos from.at) from.stride count) }
    requires to_inside { AreInside (length (words_of (B.blocks heap.old) to.block)) words (progression (pos to.at) to.stride count) }
    ensures written { B.blocks heap.new ≡ with_words (B.blocks heap.old) to.block
        (copied words (words_of (B.blocks heap.old) to.block) (words_of (B.blocks heap.old) from.block)
        (progression (pos to.at) to.stride count) (progression (pos from.at) from.stride count)) }
    ensures kept { B.kept heap.new ≡ B.kept heap.old }
{
    if count == 0 {
        return;
    }
    prove!(words <= heap.length(from.block));
    prove!(words <= heap.length(to.block));
    if is_dense(&from, words) && is_dense(&to, words) {
        copy_words(heap, from.block, from.at, to.block, to.at, count * words);
        return;
    }
    for number in 0..count {
        let source = behind(from.at, number, from.stride);
        let target = behind(to.at, number, to.stride);
        copy_words(heap, from.block, source, to.block, target, words);
    }
}
