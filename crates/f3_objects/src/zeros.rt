//! An object of zeros.

ghost use Rattle.std.specs.Prelude.{◌≡◌, ◌+◌, ◌≤◌, pos, length, replicate};
ghost use Rattle.f3_live_blocks.specs.Blocks.{IsLive, words_of, with_words};
ghost use Rattle.f3_desc.specs.Shape.{width, whole};
ghost use Rattle.f3_desc.specs.Layout.{pieces_of};
ghost use Rattle.f3_objects.specs.Tree.{IsBare, blank};
ghost use Rattle.f3_objects.specs.Holds.{Holds, with_words_at};

use f3_desc::Layout;
use f3_heap::{BlockId, Blocks};

/// Leaves zeros at the words of the object at a place, and everything unallocated there. What was
/// held there is not given back. This takes no memory.
pub fn clear<B: Blocks>(heap: &mut B, block: BlockId, at: usize, layout: &Layout)
    requires live { IsLive (B.blocks heap.old) block }
    requires within { at + width (whole (pieces_of layout.now)) ≤ length (words_of (B.blocks heap.old) block) }
    ensures zeros { let zeros = replicate (width (whole (pieces_of layout.now))) (pos 0) in
        B.blocks heap.new ≡ with_words (B.blocks heap.old) block (with_words_at (words_of (B.blocks heap.old) block) at zeros) }
    ensures unallocated { Holds (B.blocks heap.new) block at (whole (pieces_of layout.now)) (blank (whole (pieces_of layout.now))) }
    ensures bare { IsBare (blank (whole (pieces_of layout.now))) }
    ensures kept { B.kept heap.new ≡ B.kept heap.old }
{
    prove!(at <= heap.length(block));
    for i in 0..layout.words() {
        heap.write(block, at + i, 0);
    }
}
