//! One step from a part of a variable to a part of that.

ghost use Rattle.std.specs.Prelude.{◌∷◌, []};
ghost use Rattle.f3_rooms.specs.Places.{Found};
ghost use Rattle.f3_meaning_whole.specs.Store as m;
ghost use Rattle.f3_data.specs.Stores.{step_of};
ghost use Rattle.f3_room_places.specs.Places.{IsPlace, IsReached, Stands, further};

use crate::bounds::has_element;
use crate::place::{Bounds, Form, Place, form_of, one_object};
use crate::types::{before, component_of, words};
use f3_data::store::Step;
use f3_heap::{BlockId, Blocks};
use f3_program::declarations::Base;

/// A component of an object of a derived type.
fn component<'a, B: Blocks>(heap: &B, place: &Place<'a>, component: usize) -> Option<Place<'a>>
    requires { Stands (B.blocks heap.now) place.now }
    ensures { (f : Found) → IsPlace (B.blocks heap.now) place.now f → IsReached (B.blocks heap.now) result (further f (m.Component component ∷ [])) }
{
    let Form::Laid(rank, _) = &place.form else {
        return None;
    };
    if *rank > 0 {
        return None;
    }
    let Base::Derived(number) = place.of else {
        return None;
    };
    let Some((declared, offset)) = component_of(place.types, number, component) else {
        return None;
    };
    prove!(place.at <= heap.length(place.block));
    Some(Place {
        block: place.block,
        at: place.at + offset,
        types: before(place.types, number),
        of: declared.kind.of,
        form: form_of(declared),
    })
}

/// An element of an array, by its number in array element order.
fn element<'a, B: Blocks>(heap: &B, place: &Place<'a>, number: usize) -> Option<Place<'a>>
    requires { Stands (B.blocks heap.now) place.now }
    ensures { (f : Found) → IsPlace (B.blocks heap.now) place.now f → IsReached (B.blocks heap.now) result (further f (m.Element number ∷ [])) }
{
    let Form::Laid(rank, bounds) = &place.form else {
        return None;
    };
    if *rank == 0 || !has_element(heap, *rank, bounds, number) {
        return None;
    }
    prove!(place.at <= heap.length(place.block));
    Some(Place {
        block: place.block,
        at: place.at + number * words(place.types, place.of),
        types: place.types,
        of: place.of,
        form: one_object(),
    })
}

/// What an allocatable holds.
fn contents<'a, B: Blocks>(heap: &B, place: &Place<'a>) -> Option<Place<'a>>
    requires { Stands (B.blocks heap.now) place.now }
    ensures { (f : Found) → IsPlace (B.blocks heap.now) place.now f → IsReached (B.blocks heap.now) result (further f (m.Contents ∷ [])) }
{
    let Form::Allocatable(rank) = place.form else {
        return None;
    };
    prove!(place.at < heap.length(place.block));
    let block = BlockId::of(heap.read(place.block, place.at))?;
    Some(Place {
        block,
        at: 0,
        types: place.types,
        of: place.of,
        form: Form::Laid(rank, Bounds::Told(place.block, place.at + 1)),
    })
}

/// The part to which a step leads.
pub(crate) fn stepped<'a, B: Blocks>(heap: &B, place: &Place<'a>, step: Step) -> Option<Place<'a>>
    requires { Stands (B.blocks heap.now) place.now }
    ensures { (f : Found) → IsPlace (B.blocks heap.now) place.now f → IsReached (B.blocks heap.now) result (further f (step_of step ∷ [])) }
{
    match step {
        Step::Component(number) => component(heap, place, number),
        Step::Element(number) => element(heap, place, number),
        Step::Contents => contents(heap, place),
    }
}
