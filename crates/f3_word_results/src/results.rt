//! Results of functions.

ghost use Rattle.std.specs.Prelude.{◌≡◌, ◌≢◌, ◌<◌, ◌≤◌, ◌+◌, ◌^◌, length, take, drop};
ghost use Rattle.f3_code.specs.declared.instruction.Instruction.TheVariants as i;
ghost use Rattle.f3_live_blocks.specs.Blocks.{IsLive, words_of, with_words};
ghost use Rattle.f3_room_places.specs.Places.{HasTables, shapes};
ghost use Rattle.f3_rooms.specs.Forms.{room};
ghost use Rattle.f3_word_cells.specs.Ranks.{AreRanked};
ghost use Rattle.f3_word_cells.specs.Scenes.{IsScene};
ghost use Rattle.f3_word_cells.specs.Does.{DoesOver, HasNoMemory, HasNoRoom, IsAt, IsKept, Keeps};
ghost use Rattle.f3_word_results.specs.Copies.{Copies, Gives, LiesIn};

use f3_heap::{BlockId, Blocks, TakeFault};
use f3_meaning_whole::run_error::RunError;
use f3_program::declarations::{Constant, Declared};
use f3_room_levels::room_of;
use f3_room_places::types::Types;
use f3_word_areas::copies::copied as same;
use f3_word_cells::cell::{Area, Cell, Datum};
use f3_word_cells::scene::Scene;
use f3_word_cells::state::{State, Stop};
use f3_word_objects::naming::local;
use f3_word_reads::scalars::{is_scalar, scalar_in};

/// Copies as many words of one block, from one on, as another has.
fn copy_words<B: Blocks>(heap: &mut B, from: BlockId, at: usize, to: BlockId)
    requires from_live { IsLive (B.blocks heap.old) from }
    requires to_live { IsLive (B.blocks heap.old) to }
    requires different { from ≢ to }
    requires within { at + length (words_of (B.blocks heap.old) to) ≤ length (words_of (B.blocks heap.old) from) }
    ensures words { B.blocks heap.new ≡ with_words (B.blocks heap.old) to (take (length (words_of (B.blocks heap.old) to)) (drop at (words_of (B.blocks heap.old) from))) }
    ensures kept { B.kept heap.new ≡ B.kept heap.old }
{
    let (source, target) = heap.pair(from, to);
    target.copy_from_slice(&source[at..at + target.len()]);
}

/// A copy of a variable, in a block of its own.
fn copied<B: Blocks>(
    heap: &mut B,
    types: Types<'_>,
    area: &Area,
    declared: &Declared,
) -> Result<Area, Stop>
    requires tables { HasTables types }
    requires there { LiesIn (shapes types) (B.blocks heap.old) declared.now area.now }
    ensures copies { Copies (HasNoRoom B.has_room heap.old) (HasNoMemory B.allows (B.kept heap.old) (B.blocks heap.old)) (shapes types.entry) (B.blocks heap.old) (B.blocks heap.new) declared.now area.now result }
    ensures kept { B.kept heap.new ≡ B.spent (B.kept heap.old) }
{
    let words = room_of(types, declared);
    let block = match heap.take(words) {
        Ok(block) => block,
        Err(TakeFault::Full) => return Err(Stop::Failed(RunError::HeapHasNoRoom)),
        Err(TakeFault::Memory) => return Err(Stop::Memory),
    };
    copy_words(heap, area.elements.block, area.elements.offset, block);
    let mut copy = same(area);
    copy.elements.block = block;
    copy.elements.offset = 0;
    Ok(copy)
}

/// The value of a variable: a scalar, or a copy in a block of its own.
fn value_of<B: Blocks>(
    heap: &mut B,
    types: Types<'_>,
    area: &Area,
    declared: &Declared,
) -> Result<Datum, Stop>
    requires tables { HasTables types }
    requires there { LiesIn (shapes types) (B.blocks heap.old) declared.now area.now }
    ensures gives { Gives (HasNoRoom B.has_room heap.old) (HasNoMemory B.allows (B.kept heap.old) (B.blocks heap.old)) (shapes types.entry) (B.blocks heap.old) (B.blocks heap.new) declared.now area.now result }
    ensures kept { IsKept B.spent (B.kept heap.old) (B.kept heap.new) }
{
    if area.elements.dims.is_empty() && is_scalar(types, area.of) {
        let word = heap.read(area.elements.block, area.elements.offset);
        return Ok(Datum::Scalar(scalar_in(area.of, word)));
    }
    match copied(heap, types, area, declared) {
        Ok(copy) => Ok(Datum::Block(copy)),
        Err(stop) => Err(stop),
    }
}

/// The value of the result of the function at work, by its number among the variables (ISO/IEC 1539-1:2004, 12.5.2.1): a scalar, or a copy
/// in a block of its own. A subroutine has none, and gives `.FALSE.`, which nothing uses (own rule).
///
/// `Stop::Failed` where the heap has no room for a copy, `Stop::Memory` where the host refused memory for it, `Stop::Lost` where no variable
/// has the number.
#[inline(never)]
pub fn result_of<B: Blocks>(
    scene: Scene<'_>,
    heap: &mut B,
    state: &mut State,
    number: Option<usize>,
) -> Result<(), Stop>
    requires scene { IsScene scene }
    requires ranks { AreRanked scene.program.now }
    requires pc { state.old.pc < 2 ^ 63 }
    requires room { length state.old.cells.items.items < state.old.cells.room }
    requires bottom { state.old.base ≤ length state.old.cells.items.items }
    requires at { IsAt scene.program.now (i.ResultOf number) (B.blocks heap.old) state.old }
    ensures does { DoesOver (HasNoRoom B.has_room heap.old) (HasNoMemory B.allows (B.kept heap.old) (B.blocks heap.old))
        scene.entry.program.now (i.ResultOf number) result (B.blocks heap.old) (B.blocks heap.new) state.old state.new }
    ensures keeps { Keeps state.old state.new }
    ensures kept { IsKept B.spent (B.kept heap.old) (B.kept heap.new) }
{
    let datum = match number {
        None => Datum::Scalar(Constant::Truth(false)),
        Some(number) => {
            let Some((area, declared)) = local(scene, state, number) else {
                return Err(Stop::Lost);
            };
            match value_of(heap, scene.types, &area, declared) {
                Ok(datum) => datum,
                Err(stop) => return Err(stop),
            }
        }
    };
    state.go_on_with(Cell::Datum(datum));
    Ok(())
}
