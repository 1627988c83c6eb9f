//! Scalars are written.

ghost use Rattle.std.specs.Prelude.{◌≡◌, List};
ghost use Rattle.f3_meaning_whole.specs.Shape.{Shape};
ghost use Rattle.f3_meaning_whole.specs.Store.{Root, Step};
ghost use Rattle.f3_rooms.specs.Rooms.{Rooms};
ghost use Rattle.f3_rooms.specs.Places.{Found, found, scalar_in, with_word};
ghost use Rattle.f3_rooms.specs.Sound.{IsSound};
ghost use Rattle.f3_rooms.specs.Laws.{Becomes};
ghost use Rattle.f3_room_places.specs.Scalars.{IsScalarPlace};

use crate::place::Place;
use f3_heap::Blocks;

/// Writes the word of a scalar: wherever variables stand in the heap's blocks, they then have that scalar there, and nothing else changes.
pub fn set<B: Blocks>(heap: &mut B, place: &Place<'_>, word: i64)
    requires { (f : Found) × IsScalarPlace (B.blocks heap.old) place.now f }
    ensures put { (ts : List Shape) (x : Rooms) → IsSound ts (B.blocks heap.old) x → (r : Root) (way : List Step) (f : Found) → found ts x r way ≡ Some f
        → IsScalarPlace (B.blocks heap.old) place.now f → Becomes ts (B.blocks heap.old) (B.blocks heap.new) x x r way (scalar_in f.shape word) }
    ensures written { B.blocks heap.new ≡ with_word (B.blocks heap.old) place.now.block place.now.at word }
    ensures kept { B.kept heap.new ≡ B.kept heap.old }
{
    heap.write(place.block, place.at, word);
}
