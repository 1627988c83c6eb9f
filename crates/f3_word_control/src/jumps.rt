//! Where the next line is.

ghost use Rattle.std.specs.Prelude.{◌≡◌, ◌<◌, ◌≤◌, ◌^◌, length};
ghost use Rattle.f3_meaning_whole.specs.Value.{number_of};
ghost use Rattle.f3_meaning_whole.specs.Arithmetic.{constant_value, is_zero};
ghost use Rattle.f3_code.specs.declared.instruction.Instruction.TheVariants.{GoOn, GoBack, SkipIfFalse, SkipIfTrue, TestStep, Swap};
ghost use Rattle.f3_word_cells.specs.Does.{Does, Keeps};
ghost use Rattle.f3_word_control.specs.Doing.{DoesAmong};

use crate::operands::pop_scalar;
use f3_arithmetic::operators::{number_of, truth_of};
use f3_meaning_whole::run_error::RunError;
use f3_program::declarations::Constant;
use f3_word_cells::cell::{Cell, Datum};
use f3_word_cells::state::{State, Stop};

/// So far on.
#[inline(never)]
pub fn go_on(state: &mut State, distance: usize, total: usize) -> Result<(), Stop>
    requires { state.old.pc < 2 ^ 63 }
    ensures does { DoesAmong total (GoOn distance) result state.old state.new }
    ensures keeps { Keeps state.old state.new }
{
    state.ahead(distance, total)
}

/// So far back.
#[inline(never)]
pub fn go_back(state: &mut State, distance: usize) -> Result<(), Stop>
    ensures does { Does (GoBack distance) result state.old state.new }
    ensures keeps { Keeps state.old state.new }
{
    state.pc = state.pc.saturating_sub(distance);
    Ok(())
}

/// So far on where a condition does not hold.
#[inline(never)]
pub fn skip_if_false(state: &mut State, distance: usize, total: usize) -> Result<(), Stop>
    requires { state.old.pc < 2 ^ 63 }
    ensures does { DoesAmong total (SkipIfFalse distance) result state.old state.new }
    ensures keeps { Keeps state.old state.new }
{
    let Some(condition) = pop_scalar(state) else {
        return Err(Stop::Lost);
    };
    if truth_of(condition) {
        state.advance();
        Ok(())
    } else {
        state.ahead(distance, total)
    }
}

/// So far on where a condition holds.
#[inline(never)]
pub fn skip_if_true(state: &mut State, distance: usize, total: usize) -> Result<(), Stop>
    requires { state.old.pc < 2 ^ 63 }
    ensures does { DoesAmong total (SkipIfTrue distance) result state.old state.new }
    ensures keeps { Keeps state.old state.new }
{
    let Some(condition) = pop_scalar(state) else {
        return Err(Stop::Lost);
    };
    if truth_of(condition) {
        state.ahead(distance, total)
    } else {
        state.advance();
        Ok(())
    }
}

/// Whether a scalar is the number 0, or none.
fn is_zero(scalar: Constant) -> bool
    ensures { result ≡ is_zero (number_of (constant_value scalar)) }
{
    number_of(scalar) == 0
}

/// An error where a step is zero (own rule for ISO/IEC 1539-1:2004, 8.1.6.4.1).
#[inline(never)]
pub fn test_step(state: &mut State) -> Result<(), Stop>
    requires pc { state.old.pc < 2 ^ 63 }
    requires room { length state.old.cells.items.items < state.old.cells.room }
    requires bottom { state.old.base ≤ length state.old.cells.items.items }
    ensures does { Does TestStep result state.old state.new }
    ensures keeps { Keeps state.old state.new }
{
    let Some(step) = pop_scalar(state) else {
        return Err(Stop::Lost);
    };
    if is_zero(step) {
        return Err(Stop::Failed(RunError::StepIsZero));
    }
    state.go_on_with(Cell::Datum(Datum::Scalar(step)));
    Ok(())
}

/// The two on top change places.
#[inline(never)]
pub fn swap(state: &mut State) -> Result<(), Stop>
    requires pc { state.old.pc < 2 ^ 63 }
    requires room { length state.old.cells.items.items < state.old.cells.room }
    requires bottom { state.old.base ≤ length state.old.cells.items.items }
    ensures does { Does Swap result state.old state.new }
    ensures keeps { Keeps state.old state.new }
{
    let Some(first) = state.pop() else {
        return Err(Stop::Lost);
    };
    let Some(second) = state.pop() else {
        return Err(Stop::Lost);
    };
    state.push(first);
    state.go_on_with(second);
    Ok(())
}
