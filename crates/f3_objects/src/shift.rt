//! Moving an allocation.

ghost use Rattle.std.specs.Prelude.{◌≡◌, ◌≢◌, ◌↔◌, ◌+◌, ◌*◌, ◌≤◌, ◌⊎◌, None, IsOk, OnOk, OnErr, IfSome, pos, length, take, drop, slice_set};
ghost use Rattle.f3_live_blocks.specs.Blocks.{IsLive, words_of, pins_of, with_words};
ghost use Rattle.f3_heap_laws.specs.Account.{used_by};
ghost use Rattle.f3_desc.specs.Shape.{Shape, Holder};
ghost use Rattle.f3_objects.specs.Tree.{Tree, words, times, first_block};
ghost use Rattle.f3_objects.specs.Holds.{Holds, with_words_at, Moves};

use crate::holder::block_at;
use f3_heap::{BlockId, Blocks, Pinned};

/// Moves the allocation, bounds and value of an allocatable to another of the same rank, which is
/// not allocated. The first is then not allocated, and all else is unchanged. This takes the same
/// time whatever is allocated, and no memory.
///
/// # Errors
///
/// `Pinned` exactly where the block of the first is pinned. Nothing has changed then.
pub fn move_tree<B: Blocks>(
    heap: &mut B,
    from: BlockId,
    from_at: usize,
    to: BlockId,
    to_at: usize,
    rank: usize,
) -> Result<(), Pinned>
    requires source { (s : Shape) × (t : Tree) × Holds (B.blocks heap.old) from from_at (Holder rank s) t × (times to t ≡ 0) }
    requires target { (s : Shape) × (t : Tree) × Holds (B.blocks heap.old) to to_at (Holder rank s) t × (first_block t ≡ None) }
    requires apart { from ≡ to → from_at ≡ to_at ⊎ (from_at + (1 + 2 * rank) ≤ to_at ⊎ to_at + (1 + 2 * rank) ≤ from_at) }
    ensures moved { OnOk result ((s : Shape) (t : Tree) → Holds (B.blocks heap.old) from from_at (Holder rank s) t → times to t ≡ 0
        → Moves (B.blocks heap.old) (B.blocks heap.new) from from_at to to_at rank s t) }
    ensures unpinned { (s : Shape) (t : Tree) → Holds (B.blocks heap.old) from from_at (Holder rank s) t
        → IsOk result ↔ IfSome (first_block t) (λ b. pins_of (B.blocks heap.old) b ≡ 0) }
    ensures refused { OnErr result (B.blocks heap.new ≡ B.blocks heap.old) }
    ensures used { used_by (B.blocks heap.new) ≡ used_by (B.blocks heap.old) }
    ensures kept { B.kept heap.new ≡ B.kept heap.old }
{
    if let Some(inner) = block_at(heap, from, from_at)
        && heap.pins(inner) > 0
    {
        return Err(Pinned);
    }
    prove!(from_at <= heap.length(from));
    prove!(to_at <= heap.length(to));
    for i in 0..1 + 2 * rank {
        let word = heap.read(from, from_at + i);
        heap.write(to, to_at + i, word);
    }
    heap.write(from, from_at, 0);
    Ok(())
}
