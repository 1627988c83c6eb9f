//! Calls of procedures.

ghost use Rattle.std.specs.Prelude.{◌≡◌, ◌<◌, ◌^◌, MatchOption, None, Some, slice_get};
ghost use Rattle.f3_meaning_whole.specs.Value as m;
ghost use Rattle.f3_code.specs.declared.instruction.Instruction.TheVariants.{Call};
ghost use Rattle.f3_cells.specs.Follows.{DoesThere};
ghost use Rattle.f3_cells.specs.States.{code_of};
ghost use Rattle.f3_call_steps.specs.Inner.Entering.{IsEntry, CalledWith};

use crate::frames::enter_procedure;
use f3_cells::cell::{Cell, Passed};
use f3_cells::many::pop_arguments;
use f3_cells::scene::Scene;
use f3_cells::state::{State, Stop};
use f3_data::value::Value;
use f3_meaning_whole::run_error::RunError;
use f3_places::source::Place;
use f3_program::program::Procedure;
use std::alloc::Global;

/// How many procedures are active at most (own rule).
const MOST_ACTIVE: usize = 1000;

/// A procedure of a program.
fn procedure_at(procedures: &[Procedure], number: usize) -> Option<&Procedure>
    ensures { MatchOption result (slice_get procedures.now number ≡ None) (λ q. slice_get procedures.now number ≡ Some q.now) }
{
    match procedures.get(number) {
        Some(procedure) => Some(procedure),
        None => None,
    }
}

/// The line at which the code of a procedure begins.
fn line_at(lines: &[usize], number: usize) -> Option<usize>
    ensures { result ≡ slice_get lines.now number }
{
    lines.get(number).copied()
}

/// The procedure of a number, and the line at which its code begins.
fn entry<'a>(scene: &Scene<'a>, number: usize) -> Option<(&'a Procedure, usize)>
    ensures { MatchOption result (slice_get (code_of scene.now).procedures number ≡ None) (λ e. IsEntry scene.now number (e.0).now (e.1)) }
{
    let Some(procedure) = procedure_at(&scene.program.procedures, number) else {
        return None;
    };
    let Some(line) = line_at(&scene.emission.procedures, number) else {
        return None;
    };
    Some((procedure, line))
}

/// The procedure of a number is called with these arguments; where there is none, some value is given.
fn begin_call(
    alloc: Global,
    scene: &Scene<'_>,
    state: &mut State,
    number: usize,
    arguments: Vec<Passed>,
    place: Place,
) -> Result<(), Stop>
    requires { state.old.pc < 2 ^ 63 }
    ensures { CalledWith scene.now number arguments.items place result state.old state.new }
{
    match entry(scene, number) {
        Some((procedure, line)) => {
            enter_procedure(
                alloc,
                scene.program,
                state,
                number,
                procedure,
                line,
                arguments,
                place,
            )?;
            Ok(())
        }
        None => {
            drop(arguments);
            state.go_on_with(Cell::Datum(Value::Unallocated))
        }
    }
}

/// A call of the procedure of a number with so many arguments, at a place (ISO/IEC 1539-1:2004, 12.4).
///
/// `CallsTooDeep` where 1000 procedures are active (own rule).
#[inline(never)]
pub fn call(
    alloc: Global,
    scene: &Scene<'_>,
    state: &mut State,
    number: usize,
    count: usize,
    place: Place,
) -> Result<(), Stop>
    requires { state.old.pc < 2 ^ 63 }
    ensures { (v : m.Value) → DoesThere scene.now (Call number count) v place result state.old state.new }
{
    let arguments = match pop_arguments(alloc, &mut state.stack, count) {
        Ok(arguments) => arguments,
        Err(stop) => return Err(stop),
    };
    if state.frames.len() >= MOST_ACTIVE {
        drop(arguments);
        return Err(Stop::Failed(RunError::CallsTooDeep));
    }
    begin_call(alloc, scene, state, number, arguments, place)
}
