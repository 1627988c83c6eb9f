//! Variables take values.

ghost use Rattle.std.specs.Prelude.{◌≡◌, ◌<◌, ◌⊎◌, ◌^◌};
ghost use Rattle.f3_code.specs.declared.instruction.Instruction.TheVariants as i;
ghost use Rattle.f3_word_cells.specs.Scenes.{IsScene};
ghost use Rattle.f3_word_cells.specs.Does.{DoesIn, IsAt, Keeps};

use crate::fitting::fits;
use crate::putting::put;
use f3_heap::Blocks;
use f3_meaning_whole::run_error::RunError;
use f3_program::declarations::Base;
use f3_word_cells::cell::Object;
use f3_word_cells::giving::let_go_datum;
use f3_word_cells::scene::Scene;
use f3_word_cells::state::{State, Stop};
use f3_word_reads::taking::{pop_datum, pop_object};

/// The object on top takes the value beneath, converted to a type.
fn assign<B: Blocks>(
    scene: Scene<'_>,
    heap: &mut B,
    state: &mut State,
    of: Base,
) -> Result<(), Stop>
    requires scene { IsScene scene }
    requires pc { state.old.pc < 2 ^ 63 }
    requires at { IsAt scene.program.now (i.Take of) (B.blocks heap.old) state.old ⊎ IsAt scene.program.now (i.Fill of) (B.blocks heap.old) state.old }
    ensures take { DoesIn scene.entry.program.now (i.Take of) result (B.blocks heap.old) (B.blocks heap.new) state.old state.new }
    ensures fill { DoesIn scene.entry.program.now (i.Fill of) result (B.blocks heap.old) (B.blocks heap.new) state.old state.new }
    ensures keeps { Keeps state.old state.new }
    ensures kept { B.kept heap.new ≡ B.kept heap.old }
{
    let Some(object) = pop_object(state) else {
        return Err(Stop::Lost);
    };
    let Some(datum) = pop_datum(state) else {
        return Err(Stop::Lost);
    };
    if !fits(heap, scene.types, of, &datum) {
        return Err(Stop::Failed(RunError::Overflow));
    }
    let Object::Stands(area) = object else {
        return Err(Stop::Forbidden);
    };
    put(heap, scene.types, &area, &datum);
    let_go_datum(heap, datum);
    state.advance();
    Ok(())
}

/// A variable takes a value, converted to a type (ISO/IEC 1539-1:2004, 7.4.1.3).
pub fn take<B: Blocks>(
    scene: Scene<'_>,
    heap: &mut B,
    state: &mut State,
    of: Base,
) -> Result<(), Stop>
    requires scene { IsScene scene }
    requires pc { state.old.pc < 2 ^ 63 }
    requires at { IsAt scene.program.now (i.Take of) (B.blocks heap.old) state.old }
    ensures does { DoesIn scene.entry.program.now (i.Take of) result (B.blocks heap.old) (B.blocks heap.new) state.old state.new }
    ensures keeps { Keeps state.old state.new }
    ensures kept { B.kept heap.new ≡ B.kept heap.old }
{
    assign(scene, heap, state, of)
}

/// A variable takes a value, converted to a type, in storage that it has.
pub fn fill<B: Blocks>(
    scene: Scene<'_>,
    heap: &mut B,
    state: &mut State,
    of: Base,
) -> Result<(), Stop>
    requires scene { IsScene scene }
    requires pc { state.old.pc < 2 ^ 63 }
    requires at { IsAt scene.program.now (i.Fill of) (B.blocks heap.old) state.old }
    ensures does { DoesIn scene.entry.program.now (i.Fill of) result (B.blocks heap.old) (B.blocks heap.new) state.old state.new }
    ensures keeps { Keeps state.old state.new }
    ensures kept { B.kept heap.new ≡ B.kept heap.old }
{
    assign(scene, heap, state, of)
}
