//! Calls of procedures.

ghost use Rattle.std.specs.Prelude.{◌≡◌, ◌+◌, ◌<◌, ◌≤◌, ◌^◌, length};
ghost use Rattle.f3_code.specs.declared.instruction.Instruction.TheVariants as i;
ghost use Rattle.f3_word_cells.specs.Scenes.{IsScene};
ghost use Rattle.f3_word_cells.specs.Does.{HasNoMemory, HasNoRoom, IsAt, IsKept, KeepsRoom};
ghost use Rattle.f3_word_entries.specs.Doing.{DoesOverAt};

use crate::beginning::begin_variables;
use crate::entering::{Goal, enter};
use f3_heap::{Blocks, TakeFault};
use f3_meaning_whole::run_error::RunError;
use f3_places::source::Place;
use f3_word_cells::scene::Scene;
use f3_word_cells::state::{State, Stop};

/// A procedure is called with so many arguments, from a place (ISO/IEC 1539-1:2004, 12.4).
///
/// # Errors
///
/// `CallsTooDeep` where 1000 procedures are active (own rule), and then `HeapHasNoRoom` where the heap has no room for the words of the variables
/// of the procedure; `Memory` where the host refused memory for them, as the heap's rule allows.
#[inline(never)]
pub fn call<B: Blocks>(
    scene: Scene<'_>,
    heap: &mut B,
    state: &mut State,
    number: usize,
    count: usize,
    place: Place,
) -> Result<(), Stop>
    requires scene { IsScene scene }
    requires pc { state.old.pc < 2 ^ 63 }
    requires at { IsAt scene.program.now (i.Call number count) (B.blocks heap.old) state.old }
    requires names { length state.old.names.items.items + count ≤ state.old.names.room }
    requires callers { 1000 ≤ state.old.callers.room }
    requires blocks { length state.old.blocks.items.items + count + 1 ≤ state.old.blocks.room }
    requires levels { length state.old.levels.items.items + 2 ≤ state.old.levels.room }
    ensures does { DoesOverAt (HasNoRoom B.has_room heap.old) (HasNoMemory B.allows (B.kept heap.old) (B.blocks heap.old))
        scene.entry.program.now place (i.Call number count) result (B.blocks heap.old) (B.blocks heap.new) state.old state.new }
    ensures keeps { KeepsRoom state.old state.new }
    ensures kept { IsKept B.spent (B.kept heap.old) (B.kept heap.new) }
{
    if state.callers.items.len() >= 1000 {
        return Err(Stop::Failed(RunError::CallsTooDeep));
    }
    let procedure = &scene.program.procedures[number];
    let words = scene.procedures[number].words;
    let block = match begin_variables(heap, scene.types, procedure, words) {
        Ok(block) => block,
        Err(TakeFault::Full) => return Err(Stop::Failed(RunError::HeapHasNoRoom)),
        Err(TakeFault::Memory) => return Err(Stop::Memory),
    };
    let goal = Goal {
        procedure,
        number,
        pc: scene.emission.procedures[number],
        place,
    };
    enter(state, goal, count, block);
    Ok(())
}
