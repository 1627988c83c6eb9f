//! Values, arguments and subscripts.

ghost use Rattle.std.specs.Prelude.{◌≡◌, ◌<◌, ◌^◌};
ghost use Rattle.f3_code.specs.declared.instruction.Instruction.TheVariants.{Push, Plain, PassValue, PassVariable, BoundsOfValue, Subscript, Limit, NoLimit, Triplet, Dimension};
ghost use Rattle.f3_meaning_whole.specs.Value.{spans_of};
ghost use Rattle.f3_data.specs.Values as view;
ghost use Rattle.f3_data.specs.Values.{value_of};
ghost use Rattle.f3_cells.specs.Follows.{Does};

use f3_arithmetic::turns::turns;
use f3_cells::cell::{Cell, Chosen, Passed};
use f3_cells::stacks::{pop_bound, pop_datum, pop_object};
use f3_cells::state::{State, Stop};
use f3_data::value::{Elements, Span, Value, constant, number_of};
use f3_program::declarations::Constant;
use f3_shaping::bounds::plain as with_plain_bounds;
use std::alloc::Global;

/// A constant (ISO/IEC 1539-1:2004, 4.1.2).
#[inline(never)]
pub fn push(state: &mut State, number: Constant) -> Result<(), Stop>
    requires { state.old.pc < 2 ^ 63 }
    ensures { Does (Push number) result state.old state.new }
{
    state.go_on_with(Cell::Datum(constant(number)))
}

/// The value of an expression in parentheses (7.1.7.3).
#[inline(never)]
pub fn plain(state: &mut State) -> Result<(), Stop>
    requires { state.old.pc < 2 ^ 63 }
    ensures { Does Plain result state.old state.new }
{
    let Some(value) = pop_datum(&mut state.stack) else {
        return Err(Stop::Stuck);
    };
    state.go_on_with(Cell::Datum(with_plain_bounds(value)))
}

/// A value as an argument, with its number (12.4.1).
#[inline(never)]
pub fn pass_value(state: &mut State, number: usize) -> Result<(), Stop>
    requires { state.old.pc < 2 ^ 63 }
    ensures { Does (PassValue number) result state.old state.new }
{
    let Some(value) = pop_datum(&mut state.stack) else {
        return Err(Stop::Stuck);
    };
    state.go_on_with(Cell::Argument(Passed::Given(number, value)))
}

/// An object as an argument, with its number (12.4.1).
#[inline(never)]
pub fn pass_variable(state: &mut State, number: usize) -> Result<(), Stop>
    requires { state.old.pc < 2 ^ 63 }
    ensures { Does (PassVariable number) result state.old state.new }
{
    let Some(object) = pop_object(&mut state.stack) else {
        return Err(Stop::Stuck);
    };
    state.go_on_with(Cell::Argument(Passed::Lent(number, object)))
}

/// The bounds of a value, which goes.
fn bounds_taken(alloc: Global, value: Value) -> Vec<Span>
    ensures { view.spans_of result.items ≡ spans_of (value_of value) }
{
    match value {
        Value::Array(elements) => {
            let Elements { spans, values } = Box::into_inner(elements);
            drop(values);
            spans
        }
        other => {
            drop(other);
            Vec::new(alloc)
        }
    }
}

/// The bounds of a value (13.7.60, 13.7.121).
#[inline(never)]
pub fn bounds_of_value(alloc: Global, state: &mut State) -> Result<(), Stop>
    requires { state.old.pc < 2 ^ 63 }
    ensures { Does BoundsOfValue result state.old state.new }
{
    let Some(value) = pop_datum(&mut state.stack) else {
        return Err(Stop::Stuck);
    };
    let bounds = bounds_taken(alloc, value);
    state.go_on_with(Cell::Bounds(bounds))
}

/// A subscript (6.2.2.1).
#[inline(never)]
pub fn subscript(state: &mut State) -> Result<(), Stop>
    requires { state.old.pc < 2 ^ 63 }
    ensures { Does Subscript result state.old state.new }
{
    let Some(value) = pop_datum(&mut state.stack) else {
        return Err(Stop::Stuck);
    };
    let number = number_of(&value);
    drop(value);
    state.go_on_with(Cell::Choice(Chosen::At(number)))
}

/// A bound of a triplet (6.2.2.3.1).
#[inline(never)]
pub fn limit(state: &mut State) -> Result<(), Stop>
    requires { state.old.pc < 2 ^ 63 }
    ensures { Does Limit result state.old state.new }
{
    let Some(value) = pop_datum(&mut state.stack) else {
        return Err(Stop::Stuck);
    };
    let number = number_of(&value);
    drop(value);
    state.go_on_with(Cell::Bound(Some(number)))
}

/// A bound of a triplet that is absent (6.2.2.3.1).
#[inline(never)]
pub fn no_limit(state: &mut State) -> Result<(), Stop>
    requires { state.old.pc < 2 ^ 63 }
    ensures { Does NoLimit result state.old state.new }
{
    state.go_on_with(Cell::Bound(None))
}

/// A triplet of two bounds and a step (6.2.2.3.1).
#[inline(never)]
pub fn triplet(state: &mut State) -> Result<(), Stop>
    requires { state.old.pc < 2 ^ 63 }
    ensures { Does Triplet result state.old state.new }
{
    let Some(value) = pop_datum(&mut state.stack) else {
        return Err(Stop::Stuck);
    };
    let Some(upper) = pop_bound(&mut state.stack) else {
        return Err(Stop::Stuck);
    };
    let Some(lower) = pop_bound(&mut state.stack) else {
        return Err(Stop::Stuck);
    };
    let step = number_of(&value);
    drop(value);
    state.go_on_with(Cell::Choice(Chosen::Range(lower, upper, step)))
}

/// The bounds of a dimension (6.3.1).
#[inline(never)]
pub fn dimension(state: &mut State) -> Result<(), Stop>
    requires { state.old.pc < 2 ^ 63 }
    ensures { Does Dimension result state.old state.new }
{
    let Some(last) = pop_datum(&mut state.stack) else {
        return Err(Stop::Stuck);
    };
    let Some(first) = pop_datum(&mut state.stack) else {
        return Err(Stop::Stuck);
    };
    let upper = number_of(&last);
    drop(last);
    let lower = number_of(&first);
    drop(first);
    state.go_on_with(Cell::Extent(lower, turns(lower, upper, 1)))
}
