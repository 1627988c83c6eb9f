//! The block of an allocatable.

ghost use Rattle.std.specs.Prelude.{◌≡◌, ◌<◌, ℕ, length};
ghost use Rattle.f3_live_blocks.specs.Blocks.{IsLive, words_of};
ghost use Rattle.f3_desc.specs.Shape.{Shape, Holder};
ghost use Rattle.f3_objects.specs.Tree.{Tree, first_block};
ghost use Rattle.f3_objects.specs.Holds.{Holds};

use f3_heap::{BlockId, Blocks};

/// The block of the allocatable at a place, if it is allocated.
pub(crate) fn block_at<B: Blocks>(heap: &B, block: BlockId, at: usize) -> Option<BlockId>
    requires live { IsLive (B.blocks heap.now) block }
    requires within { at < length (words_of (B.blocks heap.now) block) }
    ensures { (rank : ℕ) (s : Shape) (t : Tree) → Holds (B.blocks heap.now) block at (Holder rank s) t → result ≡ first_block t }
{
    BlockId::of(heap.read(block, at))
}
