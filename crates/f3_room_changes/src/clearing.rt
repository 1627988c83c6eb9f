//! Clearing a part of a variable.

ghost use Rattle.std.specs.Prelude.{◌≡◌, List, pos, replicate};
ghost use Rattle.f3_live_blocks.specs.Blocks.{words_of, with_words};
ghost use Rattle.f3_meaning_whole.specs.Shape.{Shape};
ghost use Rattle.f3_meaning_whole.specs.Store.{Root, Step};
ghost use Rattle.f3_desc.specs.Shape.{whole, width};
ghost use Rattle.f3_desc.specs.Layout.{pieces_of};
ghost use Rattle.f3_objects.specs.Holds.{with_words_at};
ghost use Rattle.f3_rooms.specs.Rooms.{Rooms};
ghost use Rattle.f3_rooms.specs.Places.{Found};
ghost use Rattle.f3_room_objects.specs.Changes.{IsBare, Puts, blank_value};
ghost use Rattle.f3_room_changes.specs.Allocations.{IsLaid};

use f3_desc::Layout;
use f3_heap::{BlockId, Blocks};
use f3_objects::clear as clear_words;

/// Makes the words of a part of a variable 0. Where nothing is held in it, it then has its blank
/// value. This takes no memory.
pub fn clear<B: Blocks>(heap: &mut B, block: BlockId, at: usize, layout: &Layout)
    requires { (ts : List Shape) × (x : Rooms) × (r : Root) × (way : List Step) × (f : Found) × IsLaid ts (B.blocks heap.old) x r way f block at (whole (pieces_of layout.now)) }
    ensures blank { (ts : List Shape) (x : Rooms) (r : Root) (way : List Step) (f : Found)
        → IsLaid ts (B.blocks heap.old) x r way f block at (whole (pieces_of layout.now)) → IsBare f
        → Puts ts (B.blocks heap.old) (B.blocks heap.new) x r way f (blank_value f) }
    ensures zeros { let zeros = replicate (width (whole (pieces_of layout.now))) (pos 0) in
        B.blocks heap.new ≡ with_words (B.blocks heap.old) block (with_words_at (words_of (B.blocks heap.old) block) at zeros) }
    ensures kept { B.kept heap.new ≡ B.kept heap.old }
{
    clear_words(heap, block, at, layout)
}
