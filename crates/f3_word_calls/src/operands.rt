//! Cells of one kind, taken from the top.

ghost use Rattle.f3_word_cells.specs.declared.cell.Cell.TheVariants as c;
ghost use Rattle.f3_word_cells.specs.Does.{Keeps};
ghost use Rattle.f3_word_calls.specs.Taken.{Took, level_cell};

use f3_cells::cell::Flow;
use f3_word_cells::cell::{Cell, Datum, Range};
use f3_word_cells::state::State;

/// The value on top, which is taken, if one is there.
pub fn pop_datum(state: &mut State) -> Option<Datum>
    ensures taken { Took c.Datum result state.old state.new }
    ensures keeps { Keeps state.old state.new }
{
    match state.pop() {
        Some(Cell::Datum(datum)) => Some(datum),
        _ => None,
    }
}

/// The objects on top, which are taken, if they are there.
pub fn pop_objects(state: &mut State) -> Option<Range>
    ensures taken { Took c.Objects result state.old state.new }
    ensures keeps { Keeps state.old state.new }
{
    match state.pop() {
        Some(Cell::Objects(objects)) => Some(objects),
        _ => None,
    }
}

/// How a construct was left, which is taken from the top, if it is there.
pub fn pop_going(state: &mut State) -> Option<Flow>
    ensures taken { Took c.Going result state.old state.new }
    ensures keeps { Keeps state.old state.new }
{
    match state.pop() {
        Some(Cell::Going(flow)) => Some(flow),
        _ => None,
    }
}

/// The level of the values that an ASSOCIATE holds, and its objects, which are taken from the top, if they are there.
pub fn pop_level(state: &mut State) -> Option<(usize, Range)>
    ensures taken { Took level_cell result state.old state.new }
    ensures keeps { Keeps state.old state.new }
{
    match state.pop() {
        Some(Cell::Level(level, objects)) => Some((level, objects)),
        _ => None,
    }
}
