//! Nothing is allocated beneath objects.

ghost use Rattle.std.specs.Prelude.{◌<◌, ◌^◌};
ghost use Rattle.f3_code.specs.declared.instruction.Instruction.TheVariants as i;
ghost use Rattle.f3_word_cells.specs.Does.{Does, Keeps};

use f3_word_cells::state::{State, Stop};

/// What is allocated beneath an object is freed (ISO/IEC 1539-1:2004, 6.3.3.1): nothing is.
pub fn clear(state: &mut State) -> Result<(), Stop>
    requires { state.old.pc < 2 ^ 63 }
    ensures does { Does i.Clear result state.old state.new }
    ensures keeps { Keeps state.old state.new }
{
    state.advance();
    Ok(())
}
