//! Structure constructors (ISO/IEC 1539-1:2004, 4.5.9).

ghost use Rattle.std.specs.Prelude.{◌≡◌, ◌≤◌, ◌<◌, ◌+◌, ◌^◌, length};
ghost use Rattle.f3_code.specs.declared.instruction.Instruction.TheVariants as i;
ghost use Rattle.f3_word_cells.specs.Scenes.{IsScene};
ghost use Rattle.f3_word_cells.specs.Does.{DoesOver, HasNoMemory, HasNoRoom, IsAt, IsKept, Keeps};
ghost use Rattle.f3_word_structures.specs.Members.{IsObjectIn};

use crate::checking::check;
use crate::writing::write_components;
use arrayvec::ArrayVec;
use f3_desc::descriptor::Descriptor;
use f3_heap::{BlockId, Blocks, TakeFault};
use f3_meaning_whole::run_error::RunError;
use f3_program::declarations::{Base, Component};
use f3_room_places::types::words;
use f3_word_cells::cell::{Area, Cell, Datum};
use f3_word_cells::giving::let_go;
use f3_word_cells::scene::Scene;
use f3_word_cells::state::{State, Stop};

/// One object of a derived type, whose words are the first of a block.
fn object_in(block: BlockId, of: usize) -> Area
    ensures { IsObjectIn block of result }
{
    Area {
        elements: Descriptor {
            block,
            offset: 0,
            dims: ArrayVec::new(),
        },
        of: Base::Derived(of),
    }
}

/// The object of a derived type whose components take so many values, which stand on top as arguments, each with the number of its
/// component; the other components have their initial values. It is in a new block, and the blocks of the values are given back.
///
/// `Stop::Failed` with `ShapesDiffer` or `Overflow` of the first component that cannot take its value, and then where the heap has no room
/// for the object; `Stop::Memory` where the host refused memory for it.
#[inline(never)]
pub fn structure<B: Blocks>(
    scene: Scene<'_>,
    heap: &mut B,
    state: &mut State,
    of: usize,
    count: usize,
) -> Result<(), Stop>
    requires scene { IsScene scene }
    requires pc { state.old.pc < 2 ^ 63 }
    requires room { length state.old.cells.items.items < state.old.cells.room }
    requires bottom { state.old.base ≤ length state.old.cells.items.items }
    requires at { IsAt scene.program.now (i.Structure of count) (B.blocks heap.old) state.old }
    ensures does { DoesOver (HasNoRoom B.has_room heap.old) (HasNoMemory B.allows (B.kept heap.old) (B.blocks heap.old))
        scene.entry.program.now (i.Structure of count) result (B.blocks heap.old) (B.blocks heap.new) state.old state.new }
    ensures keeps { Keeps state.old state.new }
    ensures kept { IsKept B.spent (B.kept heap.old) (B.kept heap.new) }
{
    let components: &[Component] = &scene.program.types[of].components;
    let cells: &[Cell] = &state.cells.items;
    let first = cells.len() - count;
    match check(heap, scene.types, components, &cells[first..]) {
        Ok(()) => {}
        Err(error) => return Err(Stop::Failed(error)),
    }
    let block = match heap.take(words(scene.types, Base::Derived(of))) {
        Ok(block) => block,
        Err(TakeFault::Full) => return Err(Stop::Failed(RunError::HeapHasNoRoom)),
        Err(TakeFault::Memory) => return Err(Stop::Memory),
    };
    write_components(heap, scene.types, components, &cells[first..], block);
    for _each in 0..count {
        let Some(cell) = state.pop() else {
            return Err(Stop::Lost);
        };
        let_go(heap, cell);
    }
    state.go_on_with(Cell::Datum(Datum::Block(object_in(block, of))));
    Ok(())
}
