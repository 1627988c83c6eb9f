//! Array constructors (ISO/IEC 1539-1:2004, 4.7).

ghost use Rattle.std.specs.Prelude.{◌≡◌, ◌≤◌, ◌<◌, ◌^◌, length};
ghost use Rattle.f3_code.specs.declared.instruction.Instruction.TheVariants as i;
ghost use Rattle.f3_word_cells.specs.Scenes.{IsScene};
ghost use Rattle.f3_word_cells.specs.Does.{DoesOver, HasNoMemory, HasNoRoom, IsAt, IsKept, Keeps};
ghost use Rattle.f3_word_arrays.specs.Rows.{IsRow};

use crate::taking::{base_on_top, pop_item};
use crate::writing::{take_room, write_item};
use arrayvec::ArrayVec;
use f3_desc::descriptor::{Descriptor, Dim};
use f3_heap::{BlockId, Blocks};
use f3_program::declarations::Base;
use f3_room_places::types::words;
use f3_word_cells::cell::{Area, Cell, Datum};
use f3_word_cells::giving::let_go_datum;
use f3_word_cells::scene::Scene;
use f3_word_cells::state::{State, Stop};

/// So many elements of a type, each of so many words, one behind another from the first word of a block on, with subscripts from 1 on.
fn row_in(block: BlockId, count: usize, size: usize, of: Base) -> Area
    requires { size < 2 ^ 63 }
    ensures { IsRow result block count size of }
{
    let mut dims = ArrayVec::new();
    dims.push(Dim {
        lower: 1,
        extent: count,
        stride: size as i64,
    });
    Area {
        elements: Descriptor {
            block,
            offset: 0,
            dims,
        },
        of,
    }
}

/// The array of so many values that stand on top as arguments, the last one on top. Its elements are in a new block, and the blocks of
/// the values are given back.
///
/// `Stop::Failed` where the heap has no room for it, `Stop::Memory` where the host refused memory for it.
#[inline(never)]
pub fn array<B: Blocks>(
    scene: Scene<'_>,
    heap: &mut B,
    state: &mut State,
    count: usize,
) -> Result<(), Stop>
    requires scene { IsScene scene }
    requires pc { state.old.pc < 2 ^ 63 }
    requires room { length state.old.cells.items.items < state.old.cells.room }
    requires bottom { state.old.base ≤ length state.old.cells.items.items }
    requires at { IsAt scene.program.now (i.Array count) (B.blocks heap.old) state.old }
    ensures does { DoesOver (HasNoRoom B.has_room heap.old) (HasNoMemory B.allows (B.kept heap.old) (B.blocks heap.old))
        scene.entry.program.now (i.Array count) result (B.blocks heap.old) (B.blocks heap.new) state.old state.new }
    ensures keeps { Keeps state.old state.new }
    ensures kept { IsKept B.spent (B.kept heap.old) (B.kept heap.new) }
{
    let Some(of) = base_on_top(state.cells.items.as_slice()) else {
        return Err(Stop::Lost);
    };
    let size = words(scene.types, of);
    let block = match take_room(heap, count, size) {
        Ok(block) => block,
        Err(stop) => return Err(stop),
    };
    for number in 0..count {
        let Some(datum) = pop_item(state) else {
            return Err(Stop::Lost);
        };
        write_item(heap, block, (count - 1 - number) * size, &datum);
        let_go_datum(heap, datum);
    }
    state.go_on_with(Cell::Datum(Datum::Block(row_in(block, count, size, of))));
    Ok(())
}
