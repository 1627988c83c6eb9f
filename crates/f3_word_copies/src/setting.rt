//! Variables take their initial values.

ghost use Rattle.std.specs.Prelude.{◌≡◌, ◌<◌, ◌≤◌, ◌^◌, length};
ghost use Rattle.f3_code.specs.declared.instruction.Instruction.TheVariants as i;
ghost use Rattle.f3_word_cells.specs.Scenes.{IsScene};
ghost use Rattle.f3_word_cells.specs.Does.{DoesIn, IsAt, Keeps};

use crate::putting::begin;
use f3_heap::Blocks;
use f3_word_cells::cell::{Cell, Object};
use f3_word_cells::scene::Scene;
use f3_word_cells::state::{State, Stop};
use f3_word_reads::taking::pop_object;

/// The object takes the value of the line, with which an object of its type begins (12.4.1.7).
pub fn set<B: Blocks>(scene: Scene<'_>, heap: &mut B, state: &mut State) -> Result<(), Stop>
    requires scene { IsScene scene }
    requires pc { state.old.pc < 2 ^ 63 }
    requires room { length state.old.cells.items.items < state.old.cells.room }
    requires bottom { state.old.base ≤ length state.old.cells.items.items }
    requires at { IsAt scene.program.now i.Set (B.blocks heap.old) state.old }
    ensures does { DoesIn scene.entry.program.now i.Set result (B.blocks heap.old) (B.blocks heap.new) state.old state.new }
    ensures keeps { Keeps state.old state.new }
    ensures kept { B.kept heap.new ≡ B.kept heap.old }
{
    let Some(object) = pop_object(state) else {
        return Err(Stop::Lost);
    };
    let Object::Stands(area) = object else {
        return Err(Stop::Forbidden);
    };
    begin(heap, scene.types, &area);
    state.go_on_with(Cell::Object(Object::Stands(area)));
    Ok(())
}
