//! Results of functions.

ghost use Rattle.std.specs.Prelude.{◌≡◌, ◌<◌, ◌^◌};
ghost use Rattle.f3_meaning_whole.specs.Act.{Here};
ghost use Rattle.f3_meaning_whole.specs.Eval as meaning;
ghost use Rattle.f3_code.specs.declared.instruction.Instruction.TheVariants as instruction;
ghost use Rattle.f3_data.specs.Values.{value_of};
ghost use Rattle.f3_shaping.specs.Results.{value_ran};
ghost use Rattle.f3_cells.specs.Follows.{Does};

use crate::finish::finish;
use f3_cells::stacks::pop_datum;
use f3_cells::state::{State, Stop};
use f3_data::value::Value;
use f3_meaning_whole::run_error::RunError;
use f3_shaping::bounds::plain;

/// The value of a function's result, which is no variable.
///
/// `NotAllocated` where it is unallocated (own rule).
fn result_of(value: Value) -> Result<Value, RunError>
    ensures { (here : Here) → value_ran result here.place ≡ meaning.result (value_of value) here }
{
    match value {
        Value::Allocated(held) => Ok(plain(Box::into_inner(held))),
        Value::Unallocated => Err(RunError::NotAllocated),
        other => Ok(plain(other)),
    }
}

/// The value of a function reference, by what the function returned (ISO/IEC 1539-1:2004, 12.5.2.1).
///
/// `NotAllocated` where it is unallocated (own rule).
#[inline(never)]
pub fn result(state: &mut State) -> Result<(), Stop>
    requires { state.old.pc < 2 ^ 63 }
    ensures { Does instruction.Result result state.old state.new }
{
    let Some(value) = pop_datum(&mut state.stack) else {
        return Err(Stop::Stuck);
    };
    finish(state, result_of(value))
}
