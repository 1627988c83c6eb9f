//! How requests are answered.

ghost use Rattle.std.specs.Prelude.{◌<◌, ◌^◌};
ghost use Rattle.f3_gen_values.specs.Emitted.{taken};
ghost use Rattle.f3_cells.specs.States.{setting};
ghost use Rattle.f3_requests.specs.Requests.{Answered};

use crate::asking::is_refused;
use crate::refusing::refuse;
use f3_cells::scene::Scene;
use f3_cells::state::{State, Stop};
use f3_gen_values::line::Line;
use f3_places::source::Place;
use std::alloc::Global;

/// Whether a heap of so many words refuses what the instruction of a line asks; where it does, the instruction is done, with its request
/// refused (own rule).
#[inline(always)]
pub fn answer(
    alloc: Global,
    scene: &Scene,
    size: u64,
    line: &Line,
    place: Place,
    state: &mut State,
) -> Result<bool, Stop>
    requires { state.old.pc < 2 ^ 63 }
    ensures { Answered size scene.now line.now.act (taken (setting scene.now.program.now) line.now.initial) place result state.old state.new }
{
    if !is_refused(scene, size, &line.act, &line.initial, state) {
        return Ok(false);
    }
    match refuse(alloc, line.act, state) {
        Ok(()) => Ok(true),
        Err(stop) => Err(stop),
    }
}
