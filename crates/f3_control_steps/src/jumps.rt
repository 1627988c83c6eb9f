//! Where the next line is.

ghost use Rattle.std.specs.Prelude.{◌≡◌, ◌<◌, ◌^◌};
ghost use Rattle.f3_meaning_whole.specs.Value.{number_of};
ghost use Rattle.f3_meaning_whole.specs.Arithmetic.{is_zero};
ghost use Rattle.f3_data.specs.Values.{value_of};
ghost use Rattle.f3_code.specs.declared.instruction.Instruction.TheVariants.{GoOn, GoBack, SkipIfFalse, SkipIfTrue, SkipIfFailed, Finish, Check, NoError, TestStep, Drop, Unwind, Swap};
ghost use Rattle.f3_cells.specs.Follows.{Does, DoesIn};

use f3_cells::cell::Cell;
use f3_cells::look::datum_at;
use f3_cells::stacks::{drop_cells, let_go, pop_any, pop_datum, pop_status, push};
use f3_cells::state::{State, Stop};
use f3_data::value::{Value, number_of, truth_of};
use f3_meaning_whole::run_error::RunError;

/// So far on.
#[inline(never)]
pub fn go_on(state: &mut State, distance: usize, total: usize) -> Result<(), Stop>
    requires { state.old.pc < 2 ^ 63 }
    ensures { DoesIn total (GoOn distance) result state.old state.new }
{
    state.ahead(distance, total)
}

/// So far back.
#[inline(never)]
pub fn go_back(state: &mut State, distance: usize) -> Result<(), Stop>
    ensures { Does (GoBack distance) result state.old state.new }
{
    state.pc = state.pc.saturating_sub(distance);
    Ok(())
}

/// So far on where a condition does not hold.
#[inline(never)]
pub fn skip_if_false(state: &mut State, distance: usize, total: usize) -> Result<(), Stop>
    requires { state.old.pc < 2 ^ 63 }
    ensures { DoesIn total (SkipIfFalse distance) result state.old state.new }
{
    let Some(value) = pop_datum(&mut state.stack) else {
        return Err(Stop::Stuck);
    };
    let holds = truth_of(&value);
    drop(value);
    if holds {
        state.advance();
        Ok(())
    } else {
        state.ahead(distance, total)
    }
}

/// So far on where a condition holds.
#[inline(never)]
pub fn skip_if_true(state: &mut State, distance: usize, total: usize) -> Result<(), Stop>
    requires { state.old.pc < 2 ^ 63 }
    ensures { DoesIn total (SkipIfTrue distance) result state.old state.new }
{
    let Some(value) = pop_datum(&mut state.stack) else {
        return Err(Stop::Stuck);
    };
    let holds = truth_of(&value);
    drop(value);
    if holds {
        state.ahead(distance, total)
    } else {
        state.advance();
        Ok(())
    }
}

/// No error.
#[inline(never)]
pub fn no_error(state: &mut State) -> Result<(), Stop>
    requires { state.old.pc < 2 ^ 63 }
    ensures { Does NoError result state.old state.new }
{
    state.go_on_with(Cell::Status(None))
}

/// So far on where there was an error.
#[inline(never)]
pub fn skip_if_failed(state: &mut State, distance: usize, total: usize) -> Result<(), Stop>
    requires { state.old.pc < 2 ^ 63 }
    ensures { DoesIn total (SkipIfFailed distance) result state.old state.new }
{
    let Some(status) = pop_status(&mut state.stack) else {
        return Err(Stop::Stuck);
    };
    match status {
        Some(error) => state.ahead_with(Cell::Status(Some(error)), distance, total),
        None => {
            state.advance();
            Ok(())
        }
    }
}

/// An error that there was ends the run (ISO/IEC 1539-1:2004, 6.3.1.3, 6.3.3.3).
#[inline(never)]
pub fn check(state: &mut State) -> Result<(), Stop>
    requires { state.old.pc < 2 ^ 63 }
    ensures { Does Check result state.old state.new }
{
    let Some(status) = pop_status(&mut state.stack) else {
        return Err(Stop::Stuck);
    };
    match status {
        Some(error) => Err(Stop::Failed(error)),
        None => {
            state.advance();
            Ok(())
        }
    }
}

/// Whether a value is the number 0, or none.
fn is_zero(value: &Value) -> bool
    ensures { result ≡ is_zero (number_of (value_of value.now)) }
{
    number_of(value) == 0
}

/// An error where a step is zero (own rule for 8.1.6.4.1).
#[inline(never)]
pub fn test_step(state: &mut State) -> Result<(), Stop>
    requires { state.old.pc < 2 ^ 63 }
    ensures { Does TestStep result state.old state.new }
{
    let Some(value) = datum_at(&state.stack, 0) else {
        return Err(Stop::Stuck);
    };
    if is_zero(value) {
        return Err(Stop::Failed(RunError::StepIsZero));
    }
    state.advance();
    Ok(())
}

/// What is on top goes.
#[inline(never)]
pub fn drop_top(state: &mut State) -> Result<(), Stop>
    requires { state.old.pc < 2 ^ 63 }
    ensures { Does Drop result state.old state.new }
{
    let Some(cell) = pop_any(&mut state.stack) else {
        return Err(Stop::Stuck);
    };
    let_go(cell);
    state.advance();
    Ok(())
}

/// So many cells go.
#[inline(never)]
pub fn unwind(state: &mut State, count: usize) -> Result<(), Stop>
    requires { state.old.pc < 2 ^ 63 }
    ensures { Does (Unwind count) result state.old state.new }
{
    drop_cells(&mut state.stack, count);
    state.advance();
    Ok(())
}

/// The two on top change places.
#[inline(never)]
pub fn swap(state: &mut State) -> Result<(), Stop>
    requires { state.old.pc < 2 ^ 63 }
    ensures { Does Swap result state.old state.new }
{
    let Some(first) = pop_any(&mut state.stack) else {
        return Err(Stop::Stuck);
    };
    let Some(second) = pop_any(&mut state.stack) else {
        return Err(Stop::Stuck);
    };
    push(&mut state.stack, first)?;
    state.go_on_with(second)
}
