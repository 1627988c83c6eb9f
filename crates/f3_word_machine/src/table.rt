//! What the instructions do.

ghost use Rattle.std.specs.Prelude.{◌≡◌, ◌<◌, ◌≤◌, ◌^◌, length};
ghost use Rattle.f3_output.specs.Output.{state_of};
ghost use Rattle.f3_word_cells.specs.Does.{HasNoMemory, HasNoRoom, IsAt, IsKept, KeepsRoom};
ghost use Rattle.f3_word_cells.specs.Plain.{IsPlain};
ghost use Rattle.f3_word_cells.specs.Ranks.{AreRanked, AreShort};
ghost use Rattle.f3_word_cells.specs.Scenes.{IsScene};
ghost use Rattle.f3_word_machine.specs.Room.{HasRoomFor};
ghost use Rattle.f3_word_machine.specs.Steps.{PrintsAt};

use f3_code::instruction::Instruction;
use f3_heap::Blocks;
use f3_output::output::Output;
use f3_places::source::Place;
use f3_word_arrays::building;
use f3_word_associates::beginning;
use f3_word_calls::{associates, returns};
use f3_word_cells::scene::Scene;
use f3_word_cells::state::{State, Stop};
use f3_word_control::{constructs, dropping, printing};
use f3_word_copies::{assigning, counting, setting};
use f3_word_entries::entries;
use f3_word_objects::{locating, naming, selecting};
use f3_word_reads::reading;
use f3_word_results::results;
use f3_word_steps::cells::do_cells;
use f3_word_structures::building::structure;
use f3_word_values::queries;
use std::io::Write;

/// An instruction of a program without allocatables, at a place.
pub(crate) fn perform<B: Blocks, W: Write>(
    scene: Scene<'_>,
    heap: &mut B,
    act: Instruction,
    place: Place,
    state: &mut State,
    output: &mut Output<W>,
) -> Result<(), Stop>
    requires scene { IsScene scene }
    requires plain { IsPlain scene.program.now }
    requires ranks { AreRanked scene.program.now }
    requires short { AreShort (B.blocks heap.old) }
    requires pc { state.old.pc < 2 ^ 63 }
    requires bottom { state.old.base ≤ length state.old.cells.items.items }
    requires room { HasRoomFor act state.old }
    requires at { IsAt scene.program.now act (B.blocks heap.old) state.old }
    ensures rooms { KeepsRoom state.old state.new }
    ensures does { PrintsAt (HasNoRoom B.has_room heap.old) (HasNoMemory B.allows (B.kept heap.old) (B.blocks heap.old))
        scene.entry.program.now place act result (B.blocks heap.old) (B.blocks heap.new) state.old state.new
        (state_of W.contents output.old) (state_of W.contents output.new) }
    ensures kept { IsKept B.spent (B.kept heap.old) (B.kept heap.new) }
{
    let total = scene.emission.lines.len();
    match act {
        Instruction::BoundsOfValue => queries::bounds_of_value(heap, state),
        Instruction::Load => reading::load(scene, heap, state),
        Instruction::Refer(a0) => naming::refer(scene, state, a0),
        Instruction::Component(a0) => locating::component(scene, state, a0),
        Instruction::Select(a0, a1) => selecting::select(state, a0, a1),
        Instruction::ComponentOf(a0) => locating::component_beside(scene, state, a0),
        Instruction::SelectOf(a0, a1, a2) => selecting::select_of(scene, state, a0, a1, a2),
        Instruction::Selecting => constructs::selecting(heap, state),
        Instruction::Set => setting::set(scene, heap, state),
        Instruction::Take(a0) => assigning::take(scene, heap, state, a0),
        Instruction::Fill(a0) => assigning::fill(scene, heap, state, a0),
        Instruction::Drop => dropping::drop_top(heap, state),
        Instruction::Unwind(a0) => dropping::unwind(heap, state, a0),
        Instruction::PrintValue => printing::print_value(heap, state, output),
        Instruction::PrintByte(a0) => printing::print_byte(state, a0, output),
        Instruction::EndAssociate => associates::end_associate(heap, state),
        Instruction::CountBegin => counting::count_begin(scene, heap, state),
        Instruction::CountUp(a0) => counting::count_up(scene, heap, state, a0),
        Instruction::Return => returns::return_to_caller(heap, state),
        Instruction::Array(a0) => building::array(scene, heap, state, a0),
        Instruction::Structure(a0, a1) => structure(scene, heap, state, a0, a1),
        Instruction::Call(a0, a1) => entries::call(scene, heap, state, a0, a1, place),
        Instruction::ResultOf(a0) => results::result_of(scene, heap, state, a0),
        Instruction::Associate(a0) => beginning::associate(state, a0),
        _ => do_cells(act, place, total, state),
    }
}
