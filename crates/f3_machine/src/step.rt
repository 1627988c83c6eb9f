//! One instruction.

ghost use Rattle.std.specs.Prelude.{◌≡◌};
ghost use Rattle.f3_output.specs.Output.{state_of};
ghost use Rattle.std.specs.Prelude.{◌<◌, ◌^◌};
ghost use Rattle.f3_machine.specs.Steps.{DoesLine, StepsTo, ended_by};

use crate::table::perform;
use f3_cells::scene::Scene;
use f3_cells::state::{State, Stop};
use f3_gen_values::line::Line;
use f3_machine_laws::ended::Ended;
use f3_output::output::Output;
use f3_places::source::Place;
use f3_requests::answering::answer;
use f3_scalar_run::run::line_at;
use std::alloc::Global;
use std::io::Write;

/// How a run ends where an instruction at a place stops it.
#[inline(never)]
fn end_of(stop: Stop, place: Place) -> Ended
    ensures { result ≡ ended_by stop place }
{
    match stop {
        Stop::Done => Ended::Done,
        Stop::Stopped(number) => Ended::Stopped(number),
        Stop::Failed(error) => Ended::Failed(error, place),
        Stop::Stuck | Stop::Lost => Ended::Stuck,
        Stop::Refused => Ended::WriteFault,
        Stop::Memory => Ended::Memory,
    }
}

/// The instruction of a line at a place: the heap answers what it asks, and then it is done, unless it was refused.
#[inline(always)]
fn do_line<W: Write>(
    alloc: Global,
    scene: &Scene<'_>,
    size: u64,
    line: &Line,
    place: Place,
    state: &mut State,
    output: &mut Output<W>,
) -> Result<(), Stop>
    requires { state.old.pc < 2 ^ 63 }
    ensures { DoesLine size scene.now line.now place result state.old state.new (state_of W.contents output.old) (state_of W.contents output.new) }
{
    match answer(alloc, scene, size, line, place, state) {
        Ok(false) => perform(alloc, scene, line, place, state, output),
        Ok(true) => Ok(()),
        Err(stop) => Err(stop),
    }
}

/// The next instruction.
#[inline(always)]
pub(crate) fn step<W: Write>(
    alloc: Global,
    scene: &Scene<'_>,
    size: u64,
    state: &mut State,
    output: &mut Output<W>,
) -> Result<(), Ended>
    ensures { StepsTo size scene.now result state.old state.new (state_of W.contents output.old) (state_of W.contents output.new) }
{
    let Some(line) = line_at(&scene.emission.lines, state.pc) else {
        return Err(Ended::Stuck);
    };
    let place = line.place.unwrap_or(state.here.place);
    match do_line(alloc, scene, size, line, place, state, output) {
        Ok(()) => Ok(()),
        Err(stop) => Err(end_of(stop, place)),
    }
}
