//! Constructs.

ghost use Rattle.std.specs.Prelude.{◌≡◌, ◌<◌, ◌≤◌, ◌^◌, length};
ghost use Rattle.f3_arithmetic.specs.Turns.{turns_of};
ghost use Rattle.f3_program.specs.declared.program.Program.{Program};
ghost use Rattle.f3_live_blocks.specs.Blocks.{Live};
ghost use Rattle.f3_meaning_whole.specs.Value.{Value};
ghost use Rattle.f3_word_cells.specs.Areas.{IsDatum};
ghost use Rattle.f3_word_cells.specs.Cells.{IsSelected};
ghost use Rattle.f3_code.specs.declared.instruction.Instruction.TheVariants.{Begin, SetPlace, Meets, Selecting, Leave, Depart, CountNext, Lend, Unlend, Discard, Finish};
ghost use Rattle.f3_code.specs.declared.instruction.Instruction.TheVariants as instruction;
ghost use Rattle.f3_code.specs.Machine as machine;
ghost use Rattle.f3_cells.specs.Cells.{flow_of};
ghost use Rattle.f3_word_cells.specs.Does.{Does, Keeps};
ghost use Rattle.f3_word_control.specs.Doing.{DoesAmong, DoesThere, DoesWith, IsAtSome};

use crate::operands::{pop_datum, pop_going, pop_outside, pop_turns};
use f3_arithmetic::operators;
use f3_cells::cell::Flow;
use f3_code::instruction::Way;
use f3_heap::Blocks;
use f3_places::source::Place;
use f3_program::declarations::Constant;
use f3_program::statement::Range;
use f3_word_cells::cell::{Cell, Datum};
use f3_word_cells::giving::let_go_datum;
use f3_word_cells::state::{State, Stop};

/// A statement begins.
#[inline(never)]
pub fn begin(state: &mut State) -> Result<(), Stop>
    requires { state.old.pc < 2 ^ 63 }
    ensures does { Does Begin result state.old state.new }
    ensures keeps { Keeps state.old state.new }
{
    state.advance();
    Ok(())
}

/// What a held value has allocated is freed, which in a program without allocatables is nothing.
#[inline(never)]
pub fn discard(state: &mut State) -> Result<(), Stop>
    requires { state.old.pc < 2 ^ 63 }
    ensures does { Does Discard result state.old state.new }
    ensures keeps { Keeps state.old state.new }
{
    state.advance();
    Ok(())
}

/// The object is lent; nothing asks for it.
#[inline(never)]
pub fn lend(state: &mut State) -> Result<(), Stop>
    requires { state.old.pc < 2 ^ 63 }
    ensures does { Does Lend result state.old state.new }
    ensures keeps { Keeps state.old state.new }
{
    state.advance();
    Ok(())
}

/// The object that was lent last is lent no longer.
#[inline(never)]
pub fn unlend(state: &mut State) -> Result<(), Stop>
    requires { state.old.pc < 2 ^ 63 }
    ensures does { Does Unlend result state.old state.new }
    ensures keeps { Keeps state.old state.new }
{
    state.advance();
    Ok(())
}

/// The run stops (ISO/IEC 1539-1:2004, 8.4).
#[inline(never)]
pub fn stop(_state: &mut State, number: Option<u32>) -> Result<(), Stop>
    ensures does { Does (instruction.Stop number) result _state.old _state.new }
    ensures keeps { Keeps _state.old _state.new }
{
    Err(Stop::Stopped(number))
}

/// The end of the run.
#[inline(never)]
pub fn finish(_state: &mut State) -> Result<(), Stop>
    ensures does { Does Finish result _state.old _state.new }
    ensures keeps { Keeps _state.old _state.new }
{
    Err(Stop::Done)
}

/// The line's place is that of the activation.
#[inline(never)]
pub fn set_place(state: &mut State, place: Place) -> Result<(), Stop>
    requires { state.old.pc < 2 ^ 63 }
    ensures does { DoesThere place SetPlace result state.old state.new }
    ensures keeps { Keeps state.old state.new }
{
    state.here.place = place;
    state.advance();
    Ok(())
}

/// Whether the value of the SELECT CASE around is in a range (8.1.3).
#[inline(never)]
pub fn meets(state: &mut State, range: Range) -> Result<(), Stop>
    requires pc { state.old.pc < 2 ^ 63 }
    requires room { length state.old.cells.items.items < state.old.cells.room }
    requires bottom { state.old.base ≤ length state.old.cells.items.items }
    ensures does { Does (Meets range) result state.old state.new }
    ensures keeps { Keeps state.old state.new }
{
    let selected = state.here.selected.unwrap_or(Constant::Number(0));
    let is_met = operators::meets(range, selected);
    state.go_on_with(Cell::Datum(Datum::Scalar(Constant::Truth(is_met))));
    Ok(())
}

/// What is selected by a value: no range asks for one that is no scalar.
fn selected_by(datum: &Datum) -> Option<Constant>
    ensures { (p : Program) (m : Live) (v : Value) → IsDatum p m datum.now v → IsSelected result v }
{
    match datum {
        Datum::Scalar(scalar) => Some(*scalar),
        Datum::Block(_) => None,
    }
}

/// A SELECT CASE begins with a value (8.1.3).
#[inline(never)]
pub fn selecting<B: Blocks>(heap: &mut B, state: &mut State) -> Result<(), Stop>
    requires pc { state.old.pc < 2 ^ 63 }
    requires room { length state.old.cells.items.items < state.old.cells.room }
    requires bottom { state.old.base ≤ length state.old.cells.items.items }
    requires at { IsAtSome Selecting (B.blocks heap.old) state.old }
    ensures does { DoesWith Selecting result (B.blocks heap.old) (B.blocks heap.new) state.old state.new }
    ensures keeps { Keeps state.old state.new }
    ensures kept { B.kept heap.new ≡ B.kept heap.old }
{
    let Some(datum) = pop_datum(state) else {
        return Err(Stop::Lost);
    };
    let outer = state.here;
    state.here.selected = selected_by(&datum);
    let_go_datum(heap, datum);
    state.go_on_with(Cell::Outside(outer));
    Ok(())
}

/// How a statement is left in a way, at a place.
fn flow_of(way: Way, place: Place) -> Flow
    ensures { flow_of result ≡ machine.flow_of way place }
{
    match way {
        Way::Onward => Flow::Onward,
        Way::Cycle => Flow::Cycled,
        Way::Exit => Flow::Left,
        Way::Return => Flow::Returned(place),
    }
}

/// A SELECT CASE or an ASSOCIATE is left in a way; so far on is its end.
#[inline(never)]
pub fn leave(state: &mut State, way: Way, distance: usize, total: usize) -> Result<(), Stop>
    requires pc { state.old.pc < 2 ^ 63 }
    requires room { length state.old.cells.items.items < state.old.cells.room }
    requires bottom { state.old.base ≤ length state.old.cells.items.items }
    ensures does { DoesAmong total (Leave way distance) result state.old state.new }
    ensures keeps { Keeps state.old state.new }
{
    let Some(outer) = pop_outside(state) else {
        return Err(Stop::Lost);
    };
    let flow = flow_of(way, state.here.place);
    state.here = outer;
    state.push(Cell::Going(flow));
    state.ahead(distance, total)
}

/// Three on, or so far where it was left by a CYCLE or an EXIT; the next where by a RETURN, whose place is the activation's.
#[inline(never)]
pub fn depart(state: &mut State, cycle: usize, exit: usize, total: usize) -> Result<(), Stop>
    requires { state.old.pc < 2 ^ 63 }
    ensures does { DoesAmong total (Depart cycle exit) result state.old state.new }
    ensures keeps { Keeps state.old state.new }
{
    let Some(flow) = pop_going(state) else {
        return Err(Stop::Lost);
    };
    match flow {
        Flow::Onward => state.ahead(2, total),
        Flow::Cycled => state.ahead(cycle, total),
        Flow::Left => state.ahead(exit, total),
        Flow::Returned(place) => {
            state.here.place = place;
            state.advance();
            Ok(())
        }
    }
}

/// How many turns follow the first of so many, if there is one.
fn fewer(turns: u64) -> Option<u64>
    ensures { turns_of result ≡ turns }
{
    turns.checked_sub(1)
}

/// The next turn of a DO, or so far on where there is none (8.1.6.4.2).
#[inline(never)]
pub fn count_next(state: &mut State, distance: usize, total: usize) -> Result<(), Stop>
    requires pc { state.old.pc < 2 ^ 63 }
    requires room { length state.old.cells.items.items < state.old.cells.room }
    requires bottom { state.old.base ≤ length state.old.cells.items.items }
    ensures does { DoesAmong total (CountNext distance) result state.old state.new }
    ensures keeps { Keeps state.old state.new }
{
    let Some((turns, step)) = pop_turns(state) else {
        return Err(Stop::Lost);
    };
    match turns {
        Some(others) => {
            state.go_on_with(Cell::Turns(fewer(others), step));
            Ok(())
        }
        None => {
            state.push(Cell::Turns(None, step));
            state.ahead(distance, total)
        }
    }
}
