//! How an instruction ends that computes a scalar.

ghost use Rattle.std.specs.Prelude.{◌<◌, ◌≤◌, ◌^◌, length};
ghost use Rattle.f3_word_cells.specs.Does.{Keeps};
ghost use Rattle.f3_word_values.specs.Ends.{Finishes};

use f3_meaning_whole::run_error::RunError;
use f3_program::declarations::Constant;
use f3_word_cells::cell::{Cell, Datum};
use f3_word_cells::state::{State, Stop};

/// What an operation gave goes on top, or its error ends the run.
pub(crate) fn finish(state: &mut State, given: Result<Constant, RunError>) -> Result<(), Stop>
    requires pc { state.old.pc < 2 ^ 63 }
    requires room { length state.old.cells.items.items < state.old.cells.room }
    requires bottom { state.old.base ≤ length state.old.cells.items.items }
    ensures finishes { Finishes given result state.old state.new }
    ensures keeps { Keeps state.old state.new }
{
    match given {
        Ok(scalar) => {
            state.go_on_with(Cell::Datum(Datum::Scalar(scalar)));
            Ok(())
        }
        Err(error) => Err(Stop::Failed(error)),
    }
}
