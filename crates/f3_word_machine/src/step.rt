//! One instruction.

ghost use Rattle.std.specs.Prelude.{◌≡◌, ◌≢◌, ◌<◌, Some, length, slice_get};
ghost use Rattle.f3_meaning_whole.specs.Permitted.{IsLawful};
ghost use Rattle.f3_output.specs.Output.{state_of};
ghost use Rattle.f3_word_cells.specs.Scenes.{IsScene};
ghost use Rattle.f3_word_cells.specs.Does.{HasNoMemory, HasNoRoom, IsKept, KeepsRoom};
ghost use Rattle.f3_word_cells.specs.Plain.{IsPlain};
ghost use Rattle.f3_word_cells.specs.Ranks.{AreRanked};
ghost use Rattle.f3_word_machine.specs.Room.{IsRoomy, room_of};
ghost use Rattle.f3_word_machine.specs.Steps.{EndsBy, IsReady, StepsFrom};

use crate::ended::Ended;
use crate::table::perform;
use f3_gen_values::line::Line;
use f3_heap::Blocks;
use f3_output::output::Output;
use f3_places::source::Place;
use f3_word_cells::scene::Scene;
use f3_word_cells::state::{State, Stop};
use std::io::Write;

/// How a run ends where an instruction at a place stops it.
#[inline(never)]
fn end_of(stop: Stop, place: Place) -> Ended
    requires found { stop ≢ Stop.Lost }
    requires permitted { stop ≢ Stop.Forbidden }
    ensures { EndsBy stop place result }
{
    match stop {
        Stop::Done => Ended::Done,
        Stop::Stopped(number) => Ended::Stopped(number),
        Stop::Failed(error) => Ended::Failed(error, place),
        Stop::Refused => Ended::WriteFault,
        Stop::Memory => Ended::Memory,
        Stop::Lost | Stop::Forbidden => unreachable!(),
    }
}

/// The line of a number.
fn line_at(lines: &[Line], pc: usize) -> &Line
    requires { pc < length lines.now }
    ensures { slice_get lines.now pc ≡ Some result.now }
{
    &lines[pc]
}

/// The next instruction.
pub(crate) fn step<B: Blocks, W: Write>(
    scene: Scene<'_>,
    heap: &mut B,
    state: &mut State,
    output: &mut Output<W>,
) -> Result<(), Ended>
    requires scene { IsScene scene }
    requires plain { IsPlain scene.program.now }
    requires ranks { AreRanked scene.program.now }
    requires lawful { IsLawful scene.program.now }
    requires roomy { IsRoomy scene.program.now (room_of state.old) }
    requires ready { IsReady scene.program.now (B.blocks heap.old) state.old }
    ensures rooms { KeepsRoom state.old state.new }
    ensures does { StepsFrom (HasNoRoom B.has_room heap.old) (HasNoMemory B.allows (B.kept heap.old) (B.blocks heap.old))
        scene.entry.program.now result (B.blocks heap.old) (B.blocks heap.new) state.old state.new
        (state_of W.contents output.old) (state_of W.contents output.new) }
    ensures kept { IsKept B.spent (B.kept heap.old) (B.kept heap.new) }
{
    let line = line_at(&scene.emission.lines, state.pc);
    heap.blocks_are_short();
    let place = line.place.unwrap_or(state.here.place);
    match perform(scene, heap, line.act, place, state, output) {
        Ok(()) => Ok(()),
        Err(stop) => Err(end_of(stop, place)),
    }
}
