//! Giving back what allocatables hold.

ghost use Rattle.std.specs.Prelude.{◌≡◌, ◌↔◌, ◌<◌, ◌+◌, ℕ, List, IsOk, OnOk, is_ok};
ghost use Rattle.f3_live_blocks.specs.Blocks.{pins_of};
ghost use Rattle.f3_heap_laws.specs.Account.{used_by};
ghost use Rattle.f3_meaning_whole.specs.Value.{Unallocated, cleared};
ghost use Rattle.f3_meaning_whole.specs.Shape.{Shape};
ghost use Rattle.f3_meaning_whole.specs.Store.{Root, Step, get};
ghost use Rattle.f3_desc.specs.Shape.{whole};
ghost use Rattle.f3_desc.specs.Layout.{pieces_of};
ghost use Rattle.f3_objects.specs.Tree.{footprint};
ghost use Rattle.f3_objects.specs.Holds.{Frees};
ghost use Rattle.f3_rooms.specs.Held.{Empty, blocks_in, times};
ghost use Rattle.f3_rooms.specs.Forms.{Allocatable};
ghost use Rattle.f3_rooms.specs.Rooms.{Rooms, store_of};
ghost use Rattle.f3_rooms.specs.Places.{Found};
ghost use Rattle.f3_rooms.specs.Laws.{path_at};
ghost use Rattle.f3_room_objects.specs.Trees.{tree_at};
ghost use Rattle.f3_room_objects.specs.Changes.{Puts};
ghost use Rattle.f3_room_changes.specs.Allocations.{IsLaid, Gets};

use f3_desc::Layout;
use f3_heap::{BlockId, Blocks, Pinned};
use f3_objects::free_tree;

/// Gives back all that is held in a part of a variable: an allocatable then holds nothing
/// (ISO/IEC 1539-1:2004, 6.3.3), and so do all allocatables in an object or in an array. This takes
/// no memory.
///
/// # Errors
///
/// `Pinned` exactly where a block that is held there is pinned. What stands before the first such
/// block is then given back; that block, all beneath it and all that follows stay.
pub fn deallocate<B: Blocks>(
    heap: &mut B,
    block: BlockId,
    at: usize,
    layout: &Layout,
) -> Result<(), Pinned>
    requires { (ts : List Shape) × (x : Rooms) × (r : Root) × (way : List Step) × (f : Found) × IsLaid ts (B.blocks heap.old) x r way f block at (whole (pieces_of layout.now)) }
    ensures deallocated { OnOk result ((ts : List Shape) (x : Rooms) (r : Root) (way : List Step) (f : Found)
        → IsLaid ts (B.blocks heap.old) x r way f block at (whole (pieces_of layout.now)) → (rank : ℕ) → f.form ≡ Allocatable rank
        → Gets ts (B.blocks heap.old) (B.blocks heap.new) x r way f Empty Unallocated) }
    ensures cleared { OnOk result ((ts : List Shape) (x : Rooms) (r : Root) (way : List Step) (f : Found)
        → IsLaid ts (B.blocks heap.old) x r way f block at (whole (pieces_of layout.now))
        → Puts ts (B.blocks heap.old) (B.blocks heap.new) x r way f (cleared (get (store_of ts (B.blocks heap.old) x) (path_at r way)))) }
    ensures unpinned { (ts : List Shape) (x : Rooms) (r : Root) (way : List Step) (f : Found)
        → IsLaid ts (B.blocks heap.old) x r way f block at (whole (pieces_of layout.now))
        → IsOk result ↔ ((q : ℕ) → 0 < times q (blocks_in f.held) → pins_of (B.blocks heap.old) q ≡ 0) }
    ensures freed { (ts : List Shape) (x : Rooms) (r : Root) (way : List Step) (f : Found)
        → IsLaid ts (B.blocks heap.old) x r way f block at (whole (pieces_of layout.now))
        → Frees (B.blocks heap.old) (B.blocks heap.new) block at (tree_at (B.blocks heap.old) f) (is_ok result) }
    ensures used { OnOk result ((ts : List Shape) (x : Rooms) (r : Root) (way : List Step) (f : Found)
        → IsLaid ts (B.blocks heap.old) x r way f block at (whole (pieces_of layout.now))
        → used_by (B.blocks heap.new) + footprint (tree_at (B.blocks heap.old) f) ≡ used_by (B.blocks heap.old)) }
    ensures kept { B.kept heap.new ≡ B.kept heap.old }
{
    free_tree(heap, block, at, layout)
}
