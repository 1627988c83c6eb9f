//! Variables are read.

ghost use Rattle.std.specs.Prelude.{◌≡◌, ◌≤◌, ◌<◌, ◌^◌, length};
ghost use Rattle.f3_code.specs.declared.instruction.Instruction.TheVariants as i;
ghost use Rattle.f3_program.specs.declared.program.Program.{Program};
ghost use Rattle.f3_meaning_whole.specs.Reference.{Reference};
ghost use Rattle.f3_rooms.specs.Rooms.{Rooms};
ghost use Rattle.f3_room_places.specs.Places.{HasTables};
ghost use Rattle.f3_word_cells.specs.Scenes.{IsScene};
ghost use Rattle.f3_word_cells.specs.Does.{DoesOver, HasNoMemory, HasNoRoom, IsAt, IsKept, Keeps};
ghost use Rattle.f3_word_cells.specs.declared.cell.Object.TheVariants as o;
ghost use Rattle.f3_word_reads.specs.Reads.{IsLarge, IsThere, Reads};

use crate::packing::pack;
use crate::scalars::{is_scalar, scalar_in};
use crate::taking::pop_object;
use f3_desc::descriptor::Descriptor;
use f3_heap::{Blocks, TakeFault};
use f3_meaning_whole::run_error::RunError;
use f3_room_arrays::gather;
use f3_room_places::types::{Types, words};
use f3_word_cells::cell::{Area, Cell, Datum, Object};
use f3_word_cells::scene::Scene;
use f3_word_cells::state::{State, Stop};

/// A copy of what stands there, in a block of its own: the heap is asked for just its words. No heap has a block of 2 to the 63 words or more.
///
/// `Stop::Failed` where the heap has no room for it, `Stop::Memory` where the host refused memory for it.
fn copied<B: Blocks>(heap: &mut B, types: Types<'_>, area: &Area) -> Result<Datum, Stop>
    requires tables { HasTables types }
    requires large { IsLarge types area.now }
    requires there { (p : Program) × (x : Rooms) × (r : Reference) × IsThere p types (B.blocks heap.old) x (o.Stands area.now) r }
    ensures reads { (p : Program) (x : Rooms) (r : Reference) → IsThere p types.entry (B.blocks heap.old) x (o.Stands area.now) r
        → Reads (HasNoRoom B.has_room heap.old) (HasNoMemory B.allows (B.kept heap.old) (B.blocks heap.old)) p (B.blocks heap.old) (B.blocks heap.new) x r result }
    ensures kept { B.kept heap.new ≡ B.spent (B.kept heap.old) }
{
    let size = words(types, area.of);
    let packed = pack(&area.elements.dims, size);
    let block = match heap.take(packed.words) {
        Ok(block) => block,
        Err(TakeFault::Full) => return Err(Stop::Failed(RunError::HeapHasNoRoom)),
        Err(TakeFault::Memory) => return Err(Stop::Memory),
    };
    heap.blocks_are_short();
    if packed.words > 0 {
        gather(heap, &area.elements, size, block, 0);
    }
    Ok(Datum::Block(Area {
        elements: Descriptor {
            block,
            offset: 0,
            dims: packed.dims,
        },
        of: area.of,
    }))
}

/// What an object holds: a scalar, or a copy in a block of its own.
fn held<B: Blocks>(heap: &mut B, types: Types<'_>, object: Object) -> Result<Datum, Stop>
    requires tables { HasTables types }
    requires there { (p : Program) × (x : Rooms) × (r : Reference) × IsThere p types (B.blocks heap.old) x object r }
    ensures reads { (p : Program) (x : Rooms) (r : Reference) → IsThere p types.entry (B.blocks heap.old) x object r
        → Reads (HasNoRoom B.has_room heap.old) (HasNoMemory B.allows (B.kept heap.old) (B.blocks heap.old)) p (B.blocks heap.old) (B.blocks heap.new) x r result }
    ensures kept { IsKept B.spent (B.kept heap.old) (B.kept heap.new) }
{
    let area = match object {
        Object::Held(_, constant) => return Ok(Datum::Scalar(constant)),
        Object::Stands(area) => area,
    };
    if area.elements.dims.is_empty() && is_scalar(types, area.of) {
        let word = heap.read(area.elements.block, area.elements.offset);
        return Ok(Datum::Scalar(scalar_in(area.of, word)));
    }
    copied(heap, types, &area)
}

/// What an object holds (ISO/IEC 1539-1:2004, 7.1.8).
///
/// `Stop::Failed` where the heap has no room for a copy, `Stop::Memory` where the host refused memory for it, `Stop::Lost` where no object
/// is on top.
pub fn load<B: Blocks>(scene: Scene<'_>, heap: &mut B, state: &mut State) -> Result<(), Stop>
    requires scene { IsScene scene }
    requires pc { state.old.pc < 2 ^ 63 }
    requires room { length state.old.cells.items.items < state.old.cells.room }
    requires bottom { state.old.base ≤ length state.old.cells.items.items }
    requires at { IsAt scene.program.now i.Load (B.blocks heap.old) state.old }
    ensures does { DoesOver (HasNoRoom B.has_room heap.old) (HasNoMemory B.allows (B.kept heap.old) (B.blocks heap.old))
        scene.entry.program.now i.Load result (B.blocks heap.old) (B.blocks heap.new) state.old state.new }
    ensures keeps { Keeps state.old state.new }
    ensures kept { IsKept B.spent (B.kept heap.old) (B.kept heap.new) }
{
    let Some(object) = pop_object(state) else {
        return Err(Stop::Lost);
    };
    match held(heap, scene.types, object) {
        Ok(datum) => {
            state.go_on_with(Cell::Datum(datum));
            Ok(())
        }
        Err(stop) => Err(stop),
    }
}
