//! What stands on top.

ghost use Rattle.f3_word_reads.specs.Taken.{TookObject, TookDatum};

use f3_word_cells::cell::{Cell, Datum, Object};
use f3_word_cells::state::State;

/// The object on top, which is taken.
pub fn pop_object(state: &mut State) -> Option<Object>
    ensures { TookObject result state.old state.new }
{
    match state.pop() {
        Some(Cell::Object(object)) => Some(object),
        _ => None,
    }
}

/// The value on top, which is taken.
pub fn pop_datum(state: &mut State) -> Option<Datum>
    ensures { TookDatum result state.old state.new }
{
    match state.pop() {
        Some(Cell::Datum(datum)) => Some(datum),
        _ => None,
    }
}
