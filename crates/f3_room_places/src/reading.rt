//! What stands at a place.

ghost use Rattle.std.specs.Prelude.{◌≡◌, length, slice_get};
ghost use Rattle.std.specs.Option.{option_map};
ghost use Rattle.f3_live_blocks.specs.Blocks.{Live};
ghost use Rattle.f3_meaning_whole.specs.Value.{is_allocated, spans_of};
ghost use Rattle.f3_data.specs.Values.{span_of};
ghost use Rattle.f3_rooms.specs.Places.{Found, scalar_in, value_at};
ghost use Rattle.f3_room_places.specs.Places.{IsPlace, Stands};
ghost use Rattle.f3_room_places.specs.Scalars.{IsScalarPlace};

use crate::bounds::{rank_of, span_of};
use crate::place::{Form, Place};
use f3_data::value::Span;
use f3_heap::Blocks;

/// The word of a scalar.
pub fn get<B: Blocks>(heap: &B, place: &Place<'_>) -> i64
    requires { (f : Found) × IsScalarPlace (B.blocks heap.now) place.now f }
    ensures { (f : Found) → IsScalarPlace (B.blocks heap.now) place.now f → value_at (B.blocks heap.now) f ≡ scalar_in f.shape result }
{
    heap.read(place.block, place.at)
}

/// Whether something is allocated (ISO/IEC 1539-1:2004, 13.7.7).
pub fn is_allocated<B: Blocks>(heap: &B, place: &Place<'_>) -> bool
    requires { Stands (B.blocks heap.now) place.now }
    ensures { (f : Found) → IsPlace (B.blocks heap.now) place.now f → result ≡ is_allocated (value_at (B.blocks heap.now) f) }
{
    let Form::Allocatable(_) = &place.form else {
        return false;
    };
    prove!(place.at < heap.length(place.block));
    heap.read(place.block, place.at) > 0
}

/// How many dimensions an array has, and 0 of what is none.
pub fn rank(place: &Place<'_>) -> usize
    ensures { (m : Live) (f : Found) → IsPlace m place.now f → result ≡ length (spans_of (value_at m f)) }
{
    match &place.form {
        Form::Laid(rank, bounds) => rank_of(*rank, bounds),
        Form::Allocatable(_) => 0,
    }
}

/// The bounds of an array in the dimension of a number, counted from 0, if it has so many.
pub fn span<B: Blocks>(heap: &B, place: &Place<'_>, dimension: usize) -> Option<Span>
    requires { Stands (B.blocks heap.now) place.now }
    ensures { (f : Found) → IsPlace (B.blocks heap.now) place.now f → option_map span_of result ≡ slice_get (spans_of (value_at (B.blocks heap.now) f)) dimension }
{
    match &place.form {
        Form::Laid(rank, bounds) => span_of(heap, *rank, bounds, dimension),
        Form::Allocatable(_) => None,
    }
}
