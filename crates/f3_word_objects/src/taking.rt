//! What stands on top.

ghost use Rattle.f3_word_cells.specs.declared.cell.Cell.TheVariants as c;
ghost use Rattle.f3_word_cells.specs.Does.{Keeps};
ghost use Rattle.std.specs.Prelude.{◌≤◌};
ghost use Rattle.f3_word_objects.specs.Taken.{Took, TookChoices};

use f3_cells::cell::Chosen;
use f3_word_cells::cell::{Cell, Datum, Object};
use f3_word_cells::state::State;

/// The object on top, which is taken, if one is there.
pub(crate) fn pop_object(state: &mut State) -> Option<Object>
    ensures taken { Took c.Object result state.old state.new }
    ensures keeps { Keeps state.old state.new }
{
    match state.pop() {
        Some(Cell::Object(object)) => Some(object),
        _ => None,
    }
}

/// The value on top, which is taken, if one is there.
pub(crate) fn pop_datum(state: &mut State) -> Option<Datum>
    ensures taken { Took c.Datum result state.old state.new }
    ensures keeps { Keeps state.old state.new }
{
    match state.pop() {
        Some(Cell::Datum(datum)) => Some(datum),
        _ => None,
    }
}

/// What is selected in a dimension, which is taken from the top, if it is there.
fn pop_choice(state: &mut State) -> Option<Chosen>
    ensures taken { Took c.Choice result state.old state.new }
    ensures keeps { Keeps state.old state.new }
{
    match state.pop() {
        Some(Cell::Choice(choice)) => Some(choice),
        _ => None,
    }
}

/// What is selected in so many dimensions, the last one on top, which is taken, if it is there: the first of these.
pub(crate) fn pop_choices(state: &mut State, count: usize) -> Option<[Chosen; 7]>
    requires { count ≤ 7 }
    ensures taken { TookChoices count result state.old state.new }
    ensures keeps { Keeps state.old state.new }
{
    let mut chosen = [Chosen::At(0); 7];
    for number in 0..count {
        let Some(choice) = pop_choice(state) else {
            return None;
        };
        chosen[count - 1 - number] = choice;
    }
    Some(chosen)
}
