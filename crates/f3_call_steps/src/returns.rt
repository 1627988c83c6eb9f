//! The end of a procedure.

ghost use Rattle.std.specs.Prelude.{◌≡◌, ◌<◌, ◌^◌, IfOk};
ghost use Rattle.f3_code.specs.declared.instruction.Instruction.TheVariants.{ResultOf, Return};
ghost use Rattle.f3_code.specs.Exec.{result_at};
ghost use Rattle.f3_data.specs.Values.{value_of};
ghost use Rattle.f3_data.specs.Stores.{store_of};
ghost use Rattle.f3_cells.specs.Follows.{Does};
ghost use Rattle.f3_call_steps.specs.Returned.{Returned};

use f3_cells::cell::{Cell, Passed};
use f3_cells::stacks::{pop_datum, pop_objects};
use f3_cells::state::{Frame, State, Stop};
use f3_data::copies;
use f3_data::store::{Root, Store};
use f3_data::value::Value;
use std::alloc::{AllocError, Global};

/// The value of a variable on a level, by its number, and some value where there is none.
fn result_value(
    alloc: Global,
    store: &Store,
    level: usize,
    variable: Option<usize>,
) -> Result<Value, AllocError>
    ensures { IfOk result (λ v. value_of v ≡ result_at variable level (store_of store.now)) }
{
    let Some(number) = variable else {
        return Ok(Value::Truth(false));
    };
    match store.object(Root::Local(level, number)) {
        Some(value) => copies::value(alloc, value),
        None => Ok(Value::Unallocated),
    }
}

/// The value of a function's result, by its number among the variables, and some value of a subroutine (ISO/IEC 1539-1:2004,
/// 12.5.2.1).
#[inline(never)]
pub fn result_of(alloc: Global, state: &mut State, variable: Option<usize>) -> Result<(), Stop>
    requires { state.old.pc < 2 ^ 63 }
    ensures { Does (ResultOf variable) result state.old state.new }
{
    let value = result_value(alloc, &state.store, state.here.level, variable)?;
    state.go_on_with(Cell::Datum(value))
}

/// Arguments go; values without more ado.
fn let_go(mut arguments: Vec<Passed>) {
    for _i in 0..arguments.len() {
        match arguments.pop() {
            Some(Passed::Given(_, value)) => drop(value),
            Some(other) => drop(other),
            None => (),
        }
    }
}

/// Back where the latest frame says, with a value.
pub fn go_back(state: &mut State, value: Value) -> Result<(), Stop>
    ensures { Returned (value_of value) result state.old state.new }
{
    let Some(frame) = state.frames.pop() else {
        drop(value);
        return Err(Stop::Stuck);
    };
    state.store.leave(frame.level);
    state.pc = frame.pc;
    state.stack = frame.stack;
    state.here = frame.here;
    let_go(frame.arguments);
    state.stack.push(Cell::Datum(value))?;
    Ok(())
}

/// Back to the caller (12.4).
#[inline(never)]
pub fn return_to_caller(state: &mut State) -> Result<(), Stop>
    ensures { Does Return result state.old state.new }
{
    let Some(objects) = pop_objects(&mut state.stack) else {
        return Err(Stop::Stuck);
    };
    drop(objects);
    let Some(value) = pop_datum(&mut state.stack) else {
        return Err(Stop::Stuck);
    };
    go_back(state, value)
}
