//! An object in a block of its own.

ghost use Rattle.std.specs.Prelude.{◌≡◌, ◌≢◌, ℕ, None, IfSome};
ghost use Rattle.std.specs.FinMap.{get};
ghost use Rattle.f3_live_blocks.specs.Blocks.{IsLive};
ghost use Rattle.f3_desc.specs.Shape.{whole};
ghost use Rattle.f3_desc.specs.Layout.{pieces_of};
ghost use Rattle.f3_objects.specs.Tree.{Tree, blank, times};
ghost use Rattle.f3_objects.specs.Holds.{Holds};

use crate::dice::Dice;
use crate::growth::grow;
use f3_desc::Layout;
use f3_heap::{BlockId, Blocks};
use f3_objects::{clear, free_tree};

/// A new block with an object of zeros, if the heap has room.
pub fn blank_object<B: Blocks>(heap: &mut B, layout: &Layout) -> Option<BlockId>
    ensures holds { IfSome result (λ b. Holds (B.blocks heap.new) b 0 (whole (pieces_of layout.now)) (blank (whole (pieces_of layout.now)))) }
    ensures fresh { IfSome result (λ b. get (B.blocks heap.old) b ≡ None) }
    ensures kept { (q : ℕ) → IsLive (B.blocks heap.old) q → get (B.blocks heap.new) q ≡ get (B.blocks heap.old) q }
{
    let Ok(block) = heap.take(layout.words()) else {
        return None;
    };
    clear(heap, block, 0, layout);
    Some(block)
}

/// A new block with a random object, if the heap has room.
pub fn random_object<B: Blocks>(heap: &mut B, layout: &Layout, dice: &mut Dice) -> Option<BlockId>
    ensures { IfSome result (λ b. (t : Tree) × Holds (B.blocks heap.new) b 0 (whole (pieces_of layout.now)) t) }
{
    let block = blank_object(heap, layout)?;
    grow(heap, block, 0, layout, dice);
    Some(block)
}

/// Gives back an object with its own block, and tells whether nothing was pinned.
pub fn free_object<B: Blocks>(heap: &mut B, layout: &Layout, block: BlockId) -> bool
    requires { (t : Tree) × Holds (B.blocks heap.old) block 0 (whole (pieces_of layout.now)) t }
    ensures { (t : Tree) → Holds (B.blocks heap.old) block 0 (whole (pieces_of layout.now)) t
        → (q : ℕ) → q ≢ block → times q t ≡ 0 → get (B.blocks heap.new) q ≡ get (B.blocks heap.old) q }
{
    free_tree(heap, block, 0, layout).is_ok() && heap.give(block).is_ok()
}
