//! Moving what an allocatable holds.

ghost use Rattle.std.specs.Prelude.{◌≡◌, ◌↔◌, ℕ, List, IsOk, OnOk, OnErr};
ghost use Rattle.f3_live_blocks.specs.Blocks.{pins_of};
ghost use Rattle.f3_heap_laws.specs.Account.{used_by};
ghost use Rattle.f3_meaning_whole.specs.Shape.{Shape};
ghost use Rattle.f3_meaning_whole.specs.Store.{Root, Step};
ghost use Rattle.f3_rooms.specs.Rooms.{Rooms};
ghost use Rattle.f3_rooms.specs.Places.{Found};
ghost use Rattle.f3_room_changes.specs.Allocations.{IsMovable, IsMoved};

use f3_heap::{BlockId, Blocks, Pinned};
use f3_objects::move_tree;

/// Moves what an allocatable holds to another of its type and rank, which holds nothing and stands
/// apart (ISO/IEC 1539-1:2004, 13.7.82). This takes the same time whatever is held, and no memory.
///
/// # Errors
///
/// `Pinned` exactly where the block of what is held is pinned. Nothing has changed then.
pub fn move_allocation<B: Blocks>(
    heap: &mut B,
    from: BlockId,
    from_at: usize,
    to: BlockId,
    to_at: usize,
    rank: usize,
) -> Result<(), Pinned>
    requires { (ts : List Shape) × (x : Rooms) × (r : Root) × (q : Root) × (way : List Step) × (other : List Step) × (f : Found) × (g : Found)
        × IsMovable ts (B.blocks heap.old) x r q way other f g from from_at to to_at rank }
    ensures moved { OnOk result ((ts : List Shape) (x : Rooms) (r q : Root) (way other : List Step) (f g : Found)
        → IsMovable ts (B.blocks heap.old) x r q way other f g from from_at to to_at rank
        → IsMoved ts (B.blocks heap.old) (B.blocks heap.new) x r q way other f g) }
    ensures unpinned { (ts : List Shape) (x : Rooms) (r q : Root) (way other : List Step) (f g : Found)
        (k : IsMovable ts (B.blocks heap.old) x r q way other f g from from_at to to_at rank)
        → IsOk result ↔ (pins_of (B.blocks heap.old) k.name ≡ 0) }
    ensures refused { OnErr result (B.blocks heap.new ≡ B.blocks heap.old) }
    ensures used { used_by (B.blocks heap.new) ≡ used_by (B.blocks heap.old) }
    ensures kept { B.kept heap.new ≡ B.kept heap.old }
{
    move_tree(heap, from, from_at, to, to_at, rank)
}
