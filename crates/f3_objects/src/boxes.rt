//! Objects that are all that a block holds.

ghost use Rattle.std.specs.Prelude.{◌≡◌, ◌↔◌, ◌+◌, IsOk, OnOk, OnErr, length};
ghost use Rattle.f3_live_blocks.specs.Blocks.{words_of, pins_of};
ghost use Rattle.f3_heap_laws.specs.Account.{r, used_by};
ghost use Rattle.f3_desc.specs.Shape.{Shape};
ghost use Rattle.f3_objects.specs.Tree.{Tree};
ghost use Rattle.f3_objects.specs.Boxes.{Boxed, Unboxes};

use crate::words::copy_words;
use f3_heap::{BlockId, Blocks, Pinned};

/// Moves the object that is all that a block holds to a place where nothing is allocated, and gives
/// its block back. The blocks beneath the object change hands. Nothing else changes, and this takes
/// no memory.
///
/// # Errors
///
/// `Pinned` exactly where the block is pinned. Nothing has changed then.
pub fn unbox_tree<B: Blocks>(
    heap: &mut B,
    block: BlockId,
    to: BlockId,
    to_at: usize,
) -> Result<(), Pinned>
    requires { (s : Shape) × (t : Tree) × (u : Tree) × Boxed (B.blocks heap.old) block to to_at s t u }
    ensures unboxed { OnOk result ((s : Shape) (t u : Tree) → Boxed (B.blocks heap.old) block to to_at s t u
        → Unboxes (B.blocks heap.old) (B.blocks heap.new) block to to_at s t) }
    ensures unpinned { IsOk result ↔ (pins_of (B.blocks heap.old) block ≡ 0) }
    ensures refused { OnErr result (B.blocks heap.new ≡ B.blocks heap.old) }
    ensures used { OnOk result (used_by (B.blocks heap.new) + r (length (words_of (B.blocks heap.old) block)) ≡ used_by (B.blocks heap.old)) }
    ensures kept { B.kept heap.new ≡ B.kept heap.old }
{
    if heap.pins(block) > 0 {
        return Err(Pinned);
    }
    let count = heap.length(block);
    copy_words(heap, block, 0, to, to_at, count);
    heap.give(block)
}
