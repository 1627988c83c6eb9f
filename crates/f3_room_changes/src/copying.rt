//! Copying a part of a variable.

ghost use Rattle.std.specs.Prelude.{◌≡◌, ◌+◌, ℕ, List, [], OnOk, OnErr};
ghost use Rattle.f3_heap_laws.specs.Account.{used_by};
ghost use Rattle.f3_heap_laws.specs.Answers.{sizes, Took, Tried};
ghost use Rattle.f3_meaning_whole.specs.Value.{Value};
ghost use Rattle.f3_meaning_whole.specs.Shape.{Shape};
ghost use Rattle.f3_meaning_whole.specs.Store.{Root, Step, get};
ghost use Rattle.f3_desc.specs.Shape.{whole};
ghost use Rattle.f3_desc.specs.Layout.{pieces_of};
ghost use Rattle.f3_objects.specs.Tree.{footprint};
ghost use Rattle.f3_objects.specs.Copies.{Copies, Refuses, faults};
ghost use Rattle.f3_rooms.specs.Rooms.{Rooms, store_of};
ghost use Rattle.f3_rooms.specs.Places.{Found};
ghost use Rattle.f3_rooms.specs.Laws.{path_at};
ghost use Rattle.f3_room_objects.specs.Trees.{tree_at};
ghost use Rattle.f3_room_objects.specs.Changes.{Puts};
ghost use Rattle.f3_room_changes.specs.Allocations.{IsCopyable};

use f3_desc::Layout;
use f3_heap::{BlockId, Blocks};
use f3_objects::{TreeFault, copy_tree};

/// Copies a part of a variable to another of its form, in which nothing is held and which stands in
/// another block. What the copy holds is in new blocks.
///
/// # Errors
///
/// `Full` or `Memory`, as the heap answered the first take that it refused. What was taken is then
/// given back, and the other part has some value.
pub fn copy<B: Blocks>(
    heap: &mut B,
    from: BlockId,
    from_at: usize,
    to: BlockId,
    to_at: usize,
    layout: &Layout,
) -> Result<(), TreeFault>
    requires { (ts : List Shape) × (x : Rooms) × (q : Root) × (r : Root) × (other : List Step) × (way : List Step) × (g : Found) × (f : Found)
        × IsCopyable ts (B.blocks heap.old) x q r other way g f from from_at to to_at (whole (pieces_of layout.now)) }
    ensures copied { OnOk result ((ts : List Shape) (x : Rooms) (q r : Root) (other way : List Step) (g f : Found)
        → IsCopyable ts (B.blocks heap.old) x q r other way g f from from_at to to_at (whole (pieces_of layout.now))
        → Puts ts (B.blocks heap.old) (B.blocks heap.new) x r way f (get (store_of ts (B.blocks heap.old) x) (path_at q other))) }
    ensures took { OnOk result ((ts : List Shape) (x : Rooms) (q r : Root) (other way : List Step) (g f : Found)
        → IsCopyable ts (B.blocks heap.old) x q r other way g f from from_at to to_at (whole (pieces_of layout.now))
        → Copies (B.blocks heap.old) (B.blocks heap.new) to to_at (whole (pieces_of layout.now)) (tree_at (B.blocks heap.old) g) (tree_at (B.blocks heap.old) f) []
        (Took B.allows B.spent (B.kept heap.old) (B.kept heap.new) (B.blocks heap.old) (B.blocks heap.new))) }
    ensures emptied { OnErr result ((ts : List Shape) (x : Rooms) (q r : Root) (other way : List Step) (g f : Found)
        → IsCopyable ts (B.blocks heap.old) x q r other way g f from from_at to to_at (whole (pieces_of layout.now))
        → (v : Value) × Puts ts (B.blocks heap.old) (B.blocks heap.new) x r way f v) }
    ensures refused { OnErr result ((ts : List Shape) (x : Rooms) (q r : Root) (other way : List Step) (g f : Found)
        → IsCopyable ts (B.blocks heap.old) x q r other way g f from from_at to to_at (whole (pieces_of layout.now))
        → Refuses (tree_at (B.blocks heap.old) g) (faults result) (Tried B.allows B.spent (B.kept heap.old) (B.kept heap.new) (sizes (B.blocks heap.old)))) }
    ensures used { OnOk result ((ts : List Shape) (x : Rooms) (q r : Root) (other way : List Step) (g f : Found)
        → IsCopyable ts (B.blocks heap.old) x q r other way g f from from_at to to_at (whole (pieces_of layout.now))
        → used_by (B.blocks heap.new) ≡ used_by (B.blocks heap.old) + footprint (tree_at (B.blocks heap.old) g)) }
    ensures used_before { OnErr result (used_by (B.blocks heap.new) ≡ used_by (B.blocks heap.old)) }
{
    copy_tree(heap, from, from_at, to, to_at, layout)
}
