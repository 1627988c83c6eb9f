//! Cells that go.

ghost use Rattle.std.specs.Prelude.{◌≡◌, ◌<◌, ◌^◌};
ghost use Rattle.f3_code.specs.declared.instruction.Instruction.TheVariants.{Drop, Unwind};
ghost use Rattle.f3_word_cells.specs.Does.{Keeps};
ghost use Rattle.f3_word_control.specs.Doing.{DoesWith, IsAtSome};

use f3_heap::Blocks;
use f3_word_cells::giving::let_go;
use f3_word_cells::state::{State, Stop};

/// What is on top goes.
#[inline(never)]
pub fn drop_top<B: Blocks>(heap: &mut B, state: &mut State) -> Result<(), Stop>
    requires pc { state.old.pc < 2 ^ 63 }
    requires at { IsAtSome Drop (B.blocks heap.old) state.old }
    ensures does { DoesWith Drop result (B.blocks heap.old) (B.blocks heap.new) state.old state.new }
    ensures keeps { Keeps state.old state.new }
    ensures kept { B.kept heap.new ≡ B.kept heap.old }
{
    let Some(cell) = state.pop() else {
        return Err(Stop::Lost);
    };
    let_go(heap, cell);
    state.advance();
    Ok(())
}

/// So many cells go.
#[inline(never)]
pub fn unwind<B: Blocks>(heap: &mut B, state: &mut State, count: usize) -> Result<(), Stop>
    requires pc { state.old.pc < 2 ^ 63 }
    requires at { IsAtSome (Unwind count) (B.blocks heap.old) state.old }
    ensures does { DoesWith (Unwind count) result (B.blocks heap.old) (B.blocks heap.new) state.old state.new }
    ensures keeps { Keeps state.old state.new }
    ensures kept { B.kept heap.new ≡ B.kept heap.old }
{
    for _ in 0..count {
        let Some(cell) = state.pop() else {
            return Err(Stop::Lost);
        };
        let_go(heap, cell);
    }
    state.advance();
    Ok(())
}
