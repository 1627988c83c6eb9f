//! Instructions that print.

ghost use Rattle.std.specs.Prelude.{◌<◌, ◌^◌};
ghost use Rattle.f3_code.specs.declared.instruction.Instruction.TheVariants.{PrintByte, PrintValue};
ghost use Rattle.f3_output.specs.Output.{state_of};
ghost use Rattle.f3_machine.specs.Steps.{Prints};

use f3_cells::stacks::pop_datum;
use f3_cells::state::{State, Stop};
use f3_output::output::Output;
use f3_shaping::printing;
use std::io::Write;

/// A byte is printed (ISO/IEC 1539-1:2004, 9.5).
#[inline(never)]
pub fn print_byte<W: Write>(state: &mut State, byte: u8, output: &mut Output<W>) -> Result<(), Stop>
    requires { state.old.pc < 2 ^ 63 }
    ensures { Prints (PrintByte byte) result state.old state.new (state_of W.contents output.old) (state_of W.contents output.new) }
{
    match output.write(&[byte]) {
        Ok(()) => {
            state.advance();
            Ok(())
        }
        Err(_) => Err(Stop::Refused),
    }
}

/// A value is printed (9.5).
#[inline(never)]
pub fn print_value<W: Write>(state: &mut State, output: &mut Output<W>) -> Result<(), Stop>
    requires { state.old.pc < 2 ^ 63 }
    ensures { Prints PrintValue result state.old state.new (state_of W.contents output.old) (state_of W.contents output.new) }
{
    let Some(value) = pop_datum(&mut state.stack) else {
        return Err(Stop::Stuck);
    };
    match printing::print_value(output, &value) {
        Ok(()) => {
            drop(value);
            state.advance();
            Ok(())
        }
        Err(_) => {
            drop(value);
            Err(Stop::Refused)
        }
    }
}
