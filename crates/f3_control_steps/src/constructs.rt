//! Constructs.

ghost use Rattle.std.specs.Prelude.{◌≡◌, ◌<◌, ◌^◌, IfOk};
ghost use Rattle.f3_places.specs.declared.source.Place.{Place};
ghost use Rattle.f3_code.specs.declared.instruction.Instruction.TheVariants.{Begin, SetPlace, Meets, Selecting, Leave, Depart, SelectVariable, SelectValue, Associated, NextObject, CountNext, Discard, Finish};
ghost use Rattle.f3_code.specs.declared.instruction.Instruction.TheVariants as instruction;
ghost use Rattle.f3_arithmetic.specs.Turns.{turns_of};
ghost use Rattle.f3_program.specs.declared.program.Program.{Program};
ghost use Rattle.f3_meaning_whole.specs.Act.{selecting};
ghost use Rattle.f3_data.specs.Values.{value_of};
ghost use Rattle.f3_code.specs.Machine as machine;
ghost use Rattle.f3_cells.specs.Cells.{flow_of, here_of};
ghost use Rattle.f3_cells.specs.Follows.{Does, DoesAt, DoesIn};

use crate::lists::{next_of, reversed};
use f3_cells::cell::{Association, Cell, Flow, Here};
use f3_cells::look::{going_at, level_at};
use f3_cells::stacks::{
    pop_datum, pop_going, pop_object, pop_objects, pop_outside, pop_turns, push,
};
use f3_cells::state::{State, Stop};
use f3_code::instruction::Way;
use f3_data::copies;
use f3_data::lent::shared;
use f3_data::value::Value;
use f3_places::source::Place;
use f3_program::declarations::Base;
use f3_program::statement::Range;
use f3_shaping::operators;
use std::alloc::{AllocError, Global};
use std::mem;

/// A statement begins.
#[inline(never)]
pub fn begin(state: &mut State) -> Result<(), Stop>
    requires { state.old.pc < 2 ^ 63 }
    ensures { Does Begin result state.old state.new }
{
    state.advance();
    Ok(())
}

/// What a held value has allocated is freed.
#[inline(never)]
pub fn discard(state: &mut State) -> Result<(), Stop>
    requires { state.old.pc < 2 ^ 63 }
    ensures { Does Discard result state.old state.new }
{
    state.advance();
    Ok(())
}

/// The run stops (ISO/IEC 1539-1:2004, 8.4).
#[inline(never)]
pub fn stop(_state: &mut State, number: Option<u32>) -> Result<(), Stop>
    ensures { Does (instruction.Stop number) result _state.old _state.new }
{
    Err(Stop::Stopped(number))
}

/// The end of the run.
#[inline(never)]
pub fn finish(_state: &mut State) -> Result<(), Stop>
    ensures { Does Finish result _state.old _state.new }
{
    Err(Stop::Done)
}

/// The line's place is that of the activation.
#[inline(never)]
pub fn set_place(state: &mut State, place: Place) -> Result<(), Stop>
    requires { state.old.pc < 2 ^ 63 }
    ensures { DoesAt place SetPlace result state.old state.new }
{
    state.here.place = place;
    state.advance();
    Ok(())
}

/// Whether the value of the SELECT CASE around is in a range (8.1.3).
#[inline(never)]
pub fn meets(state: &mut State, range: Range) -> Result<(), Stop>
    requires { state.old.pc < 2 ^ 63 }
    ensures { (place : Place) → DoesAt place (Meets range) result state.old state.new }
{
    let is_met = operators::meets(range, &state.here.selected);
    state.go_on_with(Cell::Datum(Value::Truth(is_met)))
}

/// Where the statements of a SELECT CASE with this value are executed.
pub fn within_selection(alloc: Global, outer: &Here, selected: Value) -> Result<Here, AllocError>
    ensures { IfOk result (λ h. (p : Program) → here_of p h ≡ selecting (value_of selected) (here_of p outer.now)) }
{
    let names = copies::references(alloc, &outer.names)?;
    let lent = shared(&outer.lent)?;
    Ok(Here {
        place: outer.place,
        unit: outer.unit,
        level: outer.level,
        procedure: outer.procedure,
        names,
        lent,
        selected,
    })
}

/// A SELECT CASE begins with a value (8.1.3).
#[inline(never)]
pub fn selecting(alloc: Global, state: &mut State) -> Result<(), Stop>
    requires { state.old.pc < 2 ^ 63 }
    ensures { Does Selecting result state.old state.new }
{
    let Some(value) = pop_datum(&mut state.stack) else {
        return Err(Stop::Stuck);
    };
    let inner = within_selection(alloc, &state.here, value)?;
    let outer = mem::replace(&mut state.here, inner);
    state.go_on_with(Cell::Outside(outer))
}

/// How a statement is left in a way, at a place.
fn flow_of(way: Way, place: Place) -> Flow
    ensures { flow_of result ≡ machine.flow_of way place }
{
    match way {
        Way::Onward => Flow::Onward,
        Way::Cycle => Flow::Cycled,
        Way::Exit => Flow::Left,
        Way::Return => Flow::Returned(place),
    }
}

/// A SELECT CASE or an ASSOCIATE is left in a way; so far on is its end.
#[inline(never)]
pub fn leave(state: &mut State, way: Way, distance: usize, total: usize) -> Result<(), Stop>
    requires { state.old.pc < 2 ^ 63 }
    ensures { DoesIn total (Leave way distance) result state.old state.new }
{
    let Some(outer) = pop_outside(&mut state.stack) else {
        return Err(Stop::Stuck);
    };
    let flow = flow_of(way, state.here.place);
    drop(mem::replace(&mut state.here, outer));
    state.ahead_with(Cell::Going(flow), distance, total)
}

/// Three on, or so far where it was left by a CYCLE or an EXIT; the next where by a RETURN, whose place is the activation's.
#[inline(never)]
pub fn depart(state: &mut State, cycle: usize, exit: usize, total: usize) -> Result<(), Stop>
    requires { state.old.pc < 2 ^ 63 }
    ensures { DoesIn total (Depart cycle exit) result state.old state.new }
{
    let Some(flow) = pop_going(&mut state.stack) else {
        return Err(Stop::Stuck);
    };
    match flow {
        Flow::Onward => state.ahead(2, total),
        Flow::Cycled => state.ahead(cycle, total),
        Flow::Left => state.ahead(exit, total),
        Flow::Returned(place) => {
            state.here.place = place;
            state.advance();
            Ok(())
        }
    }
}

/// An object as a selector of an ASSOCIATE (8.1.4).
#[inline(never)]
pub fn select_variable(state: &mut State) -> Result<(), Stop>
    requires { state.old.pc < 2 ^ 63 }
    ensures { Does SelectVariable result state.old state.new }
{
    let Some(object) = pop_object(&mut state.stack) else {
        return Err(Stop::Stuck);
    };
    state.go_on_with(Cell::Selector(Association::Means(object)))
}

/// A value of a type as a selector of an ASSOCIATE (8.1.4).
#[inline(never)]
pub fn select_value(state: &mut State, of: Base) -> Result<(), Stop>
    requires { state.old.pc < 2 ^ 63 }
    ensures { Does (SelectValue of) result state.old state.new }
{
    let Some(value) = pop_datum(&mut state.stack) else {
        return Err(Stop::Stuck);
    };
    state.go_on_with(Cell::Selector(Association::Holds(of, value)))
}

/// The objects of the ASSOCIATE that was left.
#[inline(never)]
pub fn associated(alloc: Global, state: &mut State) -> Result<(), Stop>
    requires { state.old.pc < 2 ^ 63 }
    ensures { Does Associated result state.old state.new }
{
    let Some(_flow) = going_at(&state.stack, 0) else {
        return Err(Stop::Stuck);
    };
    let Some((_level, objects)) = level_at(&state.stack, 1) else {
        return Err(Stop::Stuck);
    };
    let left = reversed(alloc, objects)?;
    state.go_on_with(Cell::Objects(left))
}

/// The next of some objects, or so far on where there is none.
#[inline(never)]
pub fn next_object(state: &mut State, distance: usize, total: usize) -> Result<(), Stop>
    requires { state.old.pc < 2 ^ 63 }
    ensures { DoesIn total (NextObject distance) result state.old state.new }
{
    let Some(mut objects) = pop_objects(&mut state.stack) else {
        return Err(Stop::Stuck);
    };
    let Some(object) = next_of(&mut objects) else {
        return state.ahead_with(Cell::Objects(objects), distance, total);
    };
    push(&mut state.stack, Cell::Objects(objects))?;
    state.go_on_with(Cell::Object(object))
}

/// How many turns follow the first of so many, if there is one.
fn fewer(turns: u64) -> Option<u64>
    ensures { turns_of result ≡ turns }
{
    turns.checked_sub(1)
}

/// The next turn of a DO, or so far on where there is none (8.1.6.4.2).
#[inline(never)]
pub fn count_next(state: &mut State, distance: usize, total: usize) -> Result<(), Stop>
    requires { state.old.pc < 2 ^ 63 }
    ensures { DoesIn total (CountNext distance) result state.old state.new }
{
    let Some((turns, step)) = pop_turns(&mut state.stack) else {
        return Err(Stop::Stuck);
    };
    match turns {
        Some(others) => state.go_on_with(Cell::Turns(fewer(others), step)),
        None => state.ahead_with(Cell::Turns(None, step), distance, total),
    }
}
