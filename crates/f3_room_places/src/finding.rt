//! Parts of variables, found step by step.

ghost use Rattle.std.specs.Prelude.{◌≡◌};
ghost use Rattle.f3_rooms.specs.Places.{Found, in_room};
ghost use Rattle.f3_rooms.specs.Rooms.{Room};
ghost use Rattle.f3_data.specs.Stores.{steps_of};
ghost use Rattle.f3_room_places.specs.Places.{HasTables, IsPlace, IsReached, Stands, further, shapes};
ghost use Rattle.f3_room_places.specs.Starts.{IsRoomOf, starts_from};

use crate::place::{Place, form_of, same_place};
use crate::stepping::stepped;
use crate::types::Types;
use f3_data::store::Step;
use f3_heap::{BlockId, Blocks};
use f3_program::declarations::Declared;

/// A part of a part of a variable, if there is one (ISO/IEC 1539-1:2004, 6.1, 6.2).
pub fn further<'a, B: Blocks>(heap: &B, place: &Place<'a>, steps: &[Step]) -> Option<Place<'a>>
    requires { Stands (B.blocks heap.now) place.now }
    ensures { (f : Found) → IsPlace (B.blocks heap.now) place.now f → IsReached (B.blocks heap.now) result (further f (steps_of steps.now)) }
{
    let Some((step, rest)) = steps.split_first() else {
        return Some(same_place(place));
    };
    let Some(next) = stepped(heap, place, *step) else {
        return None;
    };
    further(heap, &next, rest)
}

/// A part of the variable of a number, among those that stand one after another from the first word of a block on, each from its start.
pub fn find<'a, B: Blocks>(
    heap: &B,
    types: Types<'a>,
    declared: &'a [Declared],
    starts: &[usize],
    block: BlockId,
    number: usize,
    steps: &[Step],
) -> Option<Place<'a>>
    requires tables { HasTables types }
    requires starts { starts.now ≡ starts_from (shapes types) 0 declared.now }
    requires room { (r : Room) × IsRoomOf (shapes types) (B.blocks heap.now) block declared.now r }
    ensures { (r : Room) → IsRoomOf (shapes types.entry) (B.blocks heap.now) block declared.now r
        → IsReached (B.blocks heap.now) result (in_room (shapes types.entry) r number (steps_of steps.now)) }
{
    if number >= declared.len() {
        return None;
    }
    let variable = &declared[number];
    let place = Place {
        block,
        at: starts[number],
        types,
        of: variable.kind.of,
        form: form_of(variable),
    };
    further(heap, &place, steps)
}
