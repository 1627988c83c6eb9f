//! Arrays and sections are copied with what their elements hold.

ghost use Rattle.std.specs.Prelude.{◌≡◌, ◌≢◌, ◌+◌, ◌*◌, ◌≤◌, ◌<◌, ◌^◌, ℕ, List, length, None, OnOk, OnErr, IfErr};
ghost use Rattle.std.specs.FinMap.{get as find};
ghost use Rattle.f3_live_blocks.specs.Blocks.{IsLive, words_of, pins_of};
ghost use Rattle.f3_meaning_whole.specs.Shape.{Shape};
ghost use Rattle.f3_meaning_whole.specs.Store.{Path};
ghost use Rattle.f3_desc.specs.Descriptor.{places};
ghost use Rattle.f3_desc.specs.Shape.{whole, width, Times};
ghost use Rattle.f3_desc.specs.Layout.{pieces_of};
ghost use Rattle.f3_objects.specs.Tree.{Tree, times};
ghost use Rattle.f3_objects.specs.Holds.{Holds, NonePinned};
ghost use Rattle.f3_objects.specs.Copies.{fault_of};
ghost use Rattle.f3_rooms.specs.Rooms.{Rooms};
ghost use Rattle.f3_room_arrays.specs.Inner.Clones.{IsReady, Clones, Spoils};
ghost use Rattle.f3_room_arrays.specs.Changes.{LieWithin};
ghost use Rattle.f3_room_arrays.specs.Copies.{AreCopyable, CopiesAll, OthersStay, IsAnswer};

use crate::runs::{further, size};
use f3_desc::Layout;
use f3_desc::descriptor::Descriptor;
use f3_heap::{BlockId, Blocks};
use f3_objects::{TreeFault, clear, copy_tree, free_elements};

/// Copies an object with what it holds to words of another block, whatever stands there.
fn copy_element<B: Blocks>(
    heap: &mut B,
    from: BlockId,
    from_at: usize,
    to: BlockId,
    to_at: usize,
    layout: &Layout,
) -> Result<(), TreeFault>
    requires { (t : Tree) × IsReady (B.blocks heap.old) from from_at to to_at (whole (pieces_of layout.now)) t }
    ensures copied { OnOk result ((t : Tree) → IsReady (B.blocks heap.old) from from_at to to_at (whole (pieces_of layout.now)) t
        → Clones (B.blocks heap.old) (B.blocks heap.new) to to_at (whole (pieces_of layout.now)) t) }
    ensures spoiled { OnErr result (Spoils (B.blocks heap.old) (B.blocks heap.new) to to_at (width (whole (pieces_of layout.now)))) }
    ensures answered { IfErr result (λ fault. IsAnswer B.allows (fault_of fault)) }
{
    clear(heap, to, to_at, layout);
    copy_tree(heap, from, from_at, to, to_at, layout)
}

/// Gives back what so many objects hold that stand one behind another, where nothing of that is pinned.
fn give_back<B: Blocks>(heap: &mut B, block: BlockId, at: usize, layout: &Layout, count: usize)
    requires { (t : Tree) × Holds (B.blocks heap.old) block at (Times count (whole (pieces_of layout.now))) t × NonePinned (pins_of (B.blocks heap.old)) t }
    ensures given { (t : Tree) → Holds (B.blocks heap.old) block at (Times count (whole (pieces_of layout.now))) t
        → (q : ℕ) → 0 < times q t → find (B.blocks heap.new) q ≡ None }
    ensures others { (t : Tree) → Holds (B.blocks heap.old) block at (Times count (whole (pieces_of layout.now))) t
        → (q : ℕ) → q ≢ block → times q t ≡ 0 → find (B.blocks heap.new) q ≡ find (B.blocks heap.old) q }
{
    let given = free_elements(heap, block, at, layout, count, layout.last()).is_ok();
    prove!(given);
}

/// Copies the elements of an array or of a section with what they hold to a place of another block, one behind another in array element
/// order, whatever stands there. What the copies hold is in new blocks.
///
/// # Errors
///
/// `Full` or `Memory`, as the heap answered the first take that it refused. What was taken is then given back, and the words at the place
/// are some.
pub fn gather_copies<B: Blocks>(
    heap: &mut B,
    elements: &Descriptor,
    layout: &Layout,
    to: BlockId,
    to_at: usize,
) -> Result<(), TreeFault>
    requires within { LieWithin (B.blocks heap.old) elements.now (width (whole (pieces_of layout.now))) }
    requires live { IsLive (B.blocks heap.old) to }
    requires few { length (places elements.now) < 2 ^ 64 }
    requires room { to_at + length (places elements.now) * width (whole (pieces_of layout.now)) ≤ length (words_of (B.blocks heap.old) to) }
    requires objects { (ts : List Shape) × (x : Rooms) × (s : Shape) × (ps : List Path)
        × AreCopyable ts (B.blocks heap.old) x elements.now s ps (whole (pieces_of layout.now)) to }
    ensures copied { OnOk result ((ts : List Shape) (x : Rooms) (s : Shape) (ps : List Path)
        → AreCopyable ts (B.blocks heap.old) x elements.now s ps (whole (pieces_of layout.now)) to
        → CopiesAll ts (B.blocks heap.old) (B.blocks heap.new) x s ps to to_at) }
    ensures refused { OnErr result (OthersStay (B.blocks heap.old) (B.blocks heap.new) to) }
    ensures answered { IfErr result (λ fault. IsAnswer B.allows (fault_of fault)) }
{
    prove!(to_at <= heap.length(to));
    prove!(heap.length(elements.block) <= usize::MAX);
    let dims = elements.dims.as_slice();
    let words = layout.words();
    for number in 0..size(dims) {
        let at = further(dims, elements.offset, number);
        let place = to_at + number * words;
        let copied = copy_element(heap, elements.block, at, to, place, layout);
        if copied.is_err() {
            give_back(heap, to, to_at, layout, number);
            return copied;
        }
    }
    Ok(())
}
