//! Values, arguments and subscripts.

ghost use Rattle.std.specs.Prelude.{◌≡◌, ◌<◌, ◌≤◌, ◌^◌, length};
ghost use Rattle.f3_code.specs.declared.instruction.Instruction.TheVariants.{Push, Plain, PassValue, SelectValue, Subscript, Limit, NoLimit, Triplet};
ghost use Rattle.f3_word_cells.specs.Does.{Does, Keeps};

use f3_arithmetic::operators::number_of;
use f3_cells::cell::Chosen;
use f3_program::declarations::{Base, Constant};
use f3_word_areas::values::plain as with_plain_bounds;
use f3_word_cells::cell::{Association, Cell, Datum, Passed};
use f3_word_cells::state::{State, Stop};
use f3_word_control::operands::{pop_bound, pop_datum, pop_scalar};

/// A constant (ISO/IEC 1539-1:2004, 4.1.2).
#[inline(never)]
pub fn push(state: &mut State, number: Constant) -> Result<(), Stop>
    requires pc { state.old.pc < 2 ^ 63 }
    requires room { length state.old.cells.items.items < state.old.cells.room }
    requires bottom { state.old.base ≤ length state.old.cells.items.items }
    ensures does { Does (Push number) result state.old state.new }
    ensures keeps { Keeps state.old state.new }
{
    state.go_on_with(Cell::Datum(Datum::Scalar(number)));
    Ok(())
}

/// The value of an expression in parentheses (7.1.7.3).
#[inline(never)]
pub fn plain(state: &mut State) -> Result<(), Stop>
    requires pc { state.old.pc < 2 ^ 63 }
    requires room { length state.old.cells.items.items < state.old.cells.room }
    requires bottom { state.old.base ≤ length state.old.cells.items.items }
    ensures does { Does Plain result state.old state.new }
    ensures keeps { Keeps state.old state.new }
{
    let Some(datum) = pop_datum(state) else {
        return Err(Stop::Lost);
    };
    state.go_on_with(Cell::Datum(with_plain_bounds(datum)));
    Ok(())
}

/// A value as an argument, with its number (12.4.1).
#[inline(never)]
pub fn pass_value(state: &mut State, number: usize) -> Result<(), Stop>
    requires pc { state.old.pc < 2 ^ 63 }
    requires room { length state.old.cells.items.items < state.old.cells.room }
    requires bottom { state.old.base ≤ length state.old.cells.items.items }
    ensures does { Does (PassValue number) result state.old state.new }
    ensures keeps { Keeps state.old state.new }
{
    let Some(datum) = pop_datum(state) else {
        return Err(Stop::Lost);
    };
    state.go_on_with(Cell::Argument(Passed::Given(number, datum)));
    Ok(())
}

/// A value of a type as a selector of an ASSOCIATE (8.1.4).
#[inline(never)]
pub fn select_value(state: &mut State, of: Base) -> Result<(), Stop>
    requires pc { state.old.pc < 2 ^ 63 }
    requires room { length state.old.cells.items.items < state.old.cells.room }
    requires bottom { state.old.base ≤ length state.old.cells.items.items }
    ensures does { Does (SelectValue of) result state.old state.new }
    ensures keeps { Keeps state.old state.new }
{
    let Some(datum) = pop_datum(state) else {
        return Err(Stop::Lost);
    };
    state.go_on_with(Cell::Selector(Association::Holds(of, datum)));
    Ok(())
}

/// A subscript (6.2.2.1).
#[inline(never)]
pub fn subscript(state: &mut State) -> Result<(), Stop>
    requires pc { state.old.pc < 2 ^ 63 }
    requires room { length state.old.cells.items.items < state.old.cells.room }
    requires bottom { state.old.base ≤ length state.old.cells.items.items }
    ensures does { Does Subscript result state.old state.new }
    ensures keeps { Keeps state.old state.new }
{
    let Some(scalar) = pop_scalar(state) else {
        return Err(Stop::Lost);
    };
    state.go_on_with(Cell::Choice(Chosen::At(number_of(scalar))));
    Ok(())
}

/// A bound of a triplet (6.2.2.3.1).
#[inline(never)]
pub fn limit(state: &mut State) -> Result<(), Stop>
    requires pc { state.old.pc < 2 ^ 63 }
    requires room { length state.old.cells.items.items < state.old.cells.room }
    requires bottom { state.old.base ≤ length state.old.cells.items.items }
    ensures does { Does Limit result state.old state.new }
    ensures keeps { Keeps state.old state.new }
{
    let Some(scalar) = pop_scalar(state) else {
        return Err(Stop::Lost);
    };
    state.go_on_with(Cell::Bound(Some(number_of(scalar))));
    Ok(())
}

/// A bound of a triplet that is absent (6.2.2.3.1).
#[inline(never)]
pub fn no_limit(state: &mut State) -> Result<(), Stop>
    requires pc { state.old.pc < 2 ^ 63 }
    requires room { length state.old.cells.items.items < state.old.cells.room }
    requires bottom { state.old.base ≤ length state.old.cells.items.items }
    ensures does { Does NoLimit result state.old state.new }
    ensures keeps { Keeps state.old state.new }
{
    state.go_on_with(Cell::Bound(None));
    Ok(())
}

/// A triplet of two bounds and a step (6.2.2.3.1).
#[inline(never)]
pub fn triplet(state: &mut State) -> Result<(), Stop>
    requires pc { state.old.pc < 2 ^ 63 }
    requires room { length state.old.cells.items.items < state.old.cells.room }
    requires bottom { state.old.base ≤ length state.old.cells.items.items }
    ensures does { Does Triplet result state.old state.new }
    ensures keeps { Keeps state.old state.new }
{
    let Some(step) = pop_scalar(state) else {
        return Err(Stop::Lost);
    };
    let Some(upper) = pop_bound(state) else {
        return Err(Stop::Lost);
    };
    let Some(lower) = pop_bound(state) else {
        return Err(Stop::Lost);
    };
    state.go_on_with(Cell::Choice(Chosen::Range(lower, upper, number_of(step))));
    Ok(())
}
