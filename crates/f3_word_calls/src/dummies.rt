//! Objects of dummies and of associate names, one after another.

ghost use Rattle.std.specs.Prelude.{◌≡◌, ◌<◌, ◌≤◌, ◌^◌, length, reverse};
ghost use Rattle.f3_code.specs.declared.instruction.Instruction.TheVariants.{Dummies, Outward, NextArgument, NextObject, Associated};
ghost use Rattle.f3_word_cells.specs.Does.{Does, Keeps};
ghost use Rattle.f3_word_calls.specs.Doing.{DoesAmong};
ghost use Rattle.f3_word_calls.specs.Nexts.{HasLatest, HasNext, is_passed_held};

use crate::operands::pop_objects;
use f3_word_areas::copies::copied_object;
use f3_word_cells::cell::{Cell, Object, Range};
use f3_word_cells::stack::Stack;
use f3_word_cells::state::{Caller, Name, State, Stop};

/// The objects of the dummies.
#[inline(never)]
pub fn dummies(state: &mut State) -> Result<(), Stop>
    requires pc { state.old.pc < 2 ^ 63 }
    requires room { length state.old.cells.items.items < state.old.cells.room }
    requires bottom { state.old.base ≤ length state.old.cells.items.items }
    ensures does { Does Dummies result state.old state.new }
    ensures keeps { Keeps state.old state.new }
{
    let objects = state.here.names;
    state.go_on_with(Cell::Objects(objects));
    Ok(())
}

/// The first of some objects, and those behind it.
fn next_of(names: &Stack<Name>, objects: Range) -> Option<(Object, Range)>
    ensures { HasNext result names.now.items.items objects }
{
    if objects.count == 0 {
        return None;
    }
    if objects.from >= names.items.len() {
        return None;
    }
    let object = copied_object(&names.items[objects.from].object);
    let rest = Range {
        from: objects.from + 1,
        count: objects.count - 1,
    };
    Some((object, rest))
}

/// The next of some objects, or so far on where there is none.
#[inline(never)]
pub fn next_object(state: &mut State, distance: usize, total: usize) -> Result<(), Stop>
    requires pc { state.old.pc < 2 ^ 63 }
    requires room { length state.old.cells.items.items < state.old.cells.room }
    requires bottom { state.old.base ≤ length state.old.cells.items.items }
    ensures does { DoesAmong total (NextObject distance) result state.old state.new }
    ensures keeps { Keeps state.old state.new }
{
    let Some(objects) = pop_objects(state) else {
        return Err(Stop::Lost);
    };
    let Some((object, others)) = next_of(&state.names, objects) else {
        state.push(Cell::Objects(objects));
        return state.ahead(distance, total);
    };
    state.push(Cell::Objects(others));
    state.go_on_with(Cell::Object(object));
    Ok(())
}

/// The latest caller.
fn latest(callers: &Stack<Caller>) -> Option<Caller>
    ensures { HasLatest result callers.now.items.items }
{
    let count = callers.items.len();
    if count == 0 {
        None
    } else {
        Some(callers.items[count - 1])
    }
}

/// Where the procedure was called, with the objects of its dummies.
#[inline(never)]
pub fn outward(state: &mut State) -> Result<(), Stop>
    requires pc { state.old.pc < 2 ^ 63 }
    requires room { length state.old.cells.items.items < state.old.cells.room }
    requires bottom { state.old.base ≤ length state.old.cells.items.items }
    ensures does { Does Outward result state.old state.new }
    ensures keeps { Keeps state.old state.new }
{
    let Some(caller) = latest(&state.callers) else {
        return Err(Stop::Lost);
    };
    let names = state.here.names;
    state.here = caller.here;
    state.here.place = caller.place;
    state.go_on_with(Cell::Objects(names));
    Ok(())
}

/// Whether the latest caller passed a value that is held for the dummy of a number.
fn is_held(state: &State, number: usize) -> bool
    ensures { result ≡ is_passed_held (reverse state.now.callers.items.items) state.now.names.items.items number }
{
    let Some(caller) = latest(&state.callers) else {
        return false;
    };
    let names = &state.names.items;
    let dummies = caller.dummies;
    if number >= dummies.count
        || dummies.from >= names.len()
        || number >= names.len() - dummies.from
    {
        return false;
    }
    names[dummies.from + number].is_held
}

/// The next of some objects where the argument of a number is a held value, else so far on.
#[inline(never)]
pub fn next_argument(
    state: &mut State,
    number: usize,
    distance: usize,
    total: usize,
) -> Result<(), Stop>
    requires pc { state.old.pc < 2 ^ 63 }
    requires room { length state.old.cells.items.items < state.old.cells.room }
    requires bottom { state.old.base ≤ length state.old.cells.items.items }
    ensures does { DoesAmong total (NextArgument number distance) result state.old state.new }
    ensures keeps { Keeps state.old state.new }
{
    let Some(objects) = pop_objects(state) else {
        return Err(Stop::Lost);
    };
    let Some((object, rest)) = next_of(&state.names, objects) else {
        state.push(Cell::Objects(objects));
        return state.ahead(distance, total);
    };
    state.push(Cell::Objects(rest));
    if is_held(state, number) {
        state.go_on_with(Cell::Object(object));
        Ok(())
    } else {
        state.ahead(distance, total)
    }
}
