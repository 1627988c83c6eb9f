//! How an instruction ends that makes a value.

ghost use Rattle.std.specs.Prelude.{◌<◌, ◌^◌};
ghost use Rattle.f3_value_steps.specs.Ends.{Finishes, FinishesBuilt};

use f3_cells::cell::Cell;
use f3_cells::state::{State, Stop};
use f3_data::value::Value;
use f3_meaning_whole::run_error::RunError;

/// What an operation gave goes on top, or its error ends the run.
pub(crate) fn finish(state: &mut State, given: Result<Value, RunError>) -> Result<(), Stop>
    requires { state.old.pc < 2 ^ 63 }
    ensures { Finishes given result state.old state.new }
{
    match given {
        Ok(value) => state.go_on_with(Cell::Datum(value)),
        Err(error) => Err(Stop::Failed(error)),
    }
}

/// What was built goes on top, where the heap grants its storage, or its error ends the run.
pub(crate) fn finish_built(state: &mut State, given: Result<Value, RunError>) -> Result<(), Stop>
    requires { state.old.pc < 2 ^ 63 }
    ensures { FinishesBuilt given result state.old state.new }
{
    finish(state, given)
}
