//! Runs of programs.

ghost use Rattle.std.specs.Prelude.{◌≡◌};
ghost use Rattle.std.specs.FinMap.{empty};
ghost use Rattle.f3_gen_values.specs.Emission.{code_in};
ghost use Rattle.f3_meaning_whole.specs.Formed.{IsWellFormed};
ghost use Rattle.f3_meaning_whole.specs.Permitted.{IsLawful};
ghost use Rattle.f3_cell_kinds.specs.Sense.{MakesSense};
ghost use Rattle.f3_output.specs.Output.{state_of};
ghost use Rattle.f3_word_cells.specs.Plain.{IsPlain};
ghost use Rattle.f3_word_cells.specs.Scenes.{IsScene, code_of};
ghost use Rattle.f3_word_cells.specs.Ranks.{AreRanked};
ghost use Rattle.f3_word_start.specs.Begins.{LacksRoom};
ghost use Rattle.f3_word_start.specs.Kept.{IsKeptBehind};
ghost use Rattle.f3_word_machine.specs.Room.{IsRoomy};
ghost use Rattle.f3_word_machine.specs.Runs.{IsFull, IsSpent};
ghost use Rattle.f3_word_machine.specs.Whole.{RunsWhole};

use crate::ended::Ended;
use crate::running::run;
use f3_heap::{Blocks, TakeFault};
use f3_meaning_whole::run_error::RunError;
use f3_output::output::Output;
use f3_word_cells::scene::Scene;
use f3_word_start::beginning::begin;
use f3_word_start::stacks::Room;
use std::alloc::Global;
use std::io::Write;

/// The run of a program without allocatables that makes sense, over a heap that has no blocks, for so many instructions at most: the first
/// takes the storage of its variables (ISO/IEC 1539-1:2004, 11.1, 16.5.6; own rule). Its stacks have so much room.
pub fn run_program<B: Blocks, W: Write>(
    alloc: Global,
    scene: Scene<'_>,
    room: Room,
    heap: &mut B,
    steps: u64,
    output: &mut Output<W>,
) -> Ended
    requires scene { IsScene scene }
    requires plain { IsPlain scene.program.now }
    requires ranks { AreRanked scene.program.now }
    requires formed { IsWellFormed scene.program.now }
    requires sense { MakesSense scene.program.now }
    requires lawful { IsLawful scene.program.now }
    requires roomy { IsRoomy scene.program.now room }
    requires empty { B.blocks heap.old ≡ empty }
    ensures runs { RunsWhole (LacksRoom B.blocks B.kept B.spent B.has_room heap.old scene.entry.statics.now.words scene.entry.main.now.words)
        (IsFull B.blocks B.kept B.spent B.has_room (B.kept heap.old)) (IsSpent B.blocks B.kept B.spent B.allows (B.kept heap.old))
        scene.entry.program.now steps (state_of W.contents output.old) (state_of W.contents output.new) result }
    ensures kept { IsKeptBehind B.spent (B.kept heap.old) (B.kept heap.new) }
{
    if steps == 0 {
        return Ended::StepLimit;
    }
    match begin(alloc, heap, scene, room) {
        Ok(mut state) => {
            let end = run(scene, heap, &mut state, steps - 1, output);
            drop(state);
            end
        }
        Err(TakeFault::Full) => Ended::Failed(RunError::HeapHasNoRoom, scene.program.start),
        Err(TakeFault::Memory) => Ended::Memory,
    }
}
