//! Instructions that print.

ghost use Rattle.std.specs.Prelude.{◌≡◌, ◌<◌, ◌^◌, OnOk, OnErr, flat_map};
ghost use Rattle.f3_live_blocks.specs.Blocks.{Live, IsLive, words_of};
ghost use Rattle.f3_output.specs.Output.{state_of, Wrote, Faulted};
ghost use Rattle.f3_meaning_whole.specs.Arithmetic.{constant_value};
ghost use Rattle.f3_code.specs.declared.instruction.Instruction.TheVariants.{PrintByte, PrintValue};
ghost use Rattle.f3_word_cells.specs.Free.{AreFree};
ghost use Rattle.f3_word_cells.specs.States.{datum_blocks};
ghost use Rattle.f3_word_cells.specs.Does.{Keeps};
ghost use Rattle.f3_word_control.specs.Doing.{DoesPrint, IsAtSome};
ghost use Rattle.f3_word_control.specs.Texts.{datum_text, scalar_in, text_in};

use crate::operands::pop_datum;
use f3_heap::{BlockId, Blocks};
use f3_output::output::{Output, Refused};
use f3_printing::scalar::print_scalar;
use f3_program::declarations::{Base, Constant};
use f3_word_cells::cell::Datum;
use f3_word_cells::giving::let_go_datum;
use f3_word_cells::state::{State, Stop};
use std::io::Write;

/// The scalar of a type that a word is.
pub fn scalar_of(of: Base, word: i64) -> Constant
    ensures { constant_value result ≡ scalar_in of word }
{
    match of {
        Base::Logical => Constant::Truth(word != 0),
        _ => Constant::Number(word),
    }
}

/// Writes the words of a block as scalars of a type, each behind a blank.
fn print_words<B: Blocks, W: Write>(
    heap: &B,
    block: BlockId,
    of: Base,
    output: &mut Output<W>,
) -> Result<(), Refused>
    requires { IsLive (B.blocks heap.now) block }
    ensures all { OnOk result (Wrote (state_of W.contents output.old) (state_of W.contents output.new) (flat_map (text_in of) (words_of (B.blocks heap.now) block))) }
    ensures front { OnErr result (Faulted (state_of W.contents output.old) (state_of W.contents output.new) (flat_map (text_in of) (words_of (B.blocks heap.now) block))) }
{
    for at in 0..heap.length(block) {
        print_scalar(output, scalar_of(of, heap.read(block, at)))?;
    }
    Ok(())
}

/// A byte is printed (ISO/IEC 1539-1:2004, 9.5).
#[inline(never)]
pub fn print_byte<W: Write>(state: &mut State, byte: u8, output: &mut Output<W>) -> Result<(), Stop>
    requires { state.old.pc < 2 ^ 63 }
    ensures does { (live : Live) → DoesPrint (PrintByte byte) result live live state.old state.new (state_of W.contents output.old) (state_of W.contents output.new) }
    ensures keeps { Keeps state.old state.new }
{
    match output.write(&[byte]) {
        Ok(()) => {
            state.advance();
            Ok(())
        }
        Err(_) => Err(Stop::Refused),
    }
}

/// Writes a value: a scalar, or the words of a block as scalars, each behind a blank.
fn print_datum<B: Blocks, W: Write>(
    heap: &B,
    datum: &Datum,
    output: &mut Output<W>,
) -> Result<(), Refused>
    requires { AreFree (B.blocks heap.now) (datum_blocks datum.now) }
    ensures all { OnOk result (Wrote (state_of W.contents output.old) (state_of W.contents output.new) (datum_text (B.blocks heap.now) datum.now)) }
    ensures front { OnErr result (Faulted (state_of W.contents output.old) (state_of W.contents output.new) (datum_text (B.blocks heap.now) datum.now)) }
{
    match datum {
        Datum::Scalar(scalar) => print_scalar(output, *scalar),
        Datum::Block(area) => print_words(heap, area.elements.block, area.of, output),
    }
}

/// A value is printed, of an array each element (9.5).
#[inline(never)]
pub fn print_value<B: Blocks, W: Write>(
    heap: &mut B,
    state: &mut State,
    output: &mut Output<W>,
) -> Result<(), Stop>
    requires pc { state.old.pc < 2 ^ 63 }
    requires at { IsAtSome PrintValue (B.blocks heap.old) state.old }
    ensures does { DoesPrint PrintValue result (B.blocks heap.old) (B.blocks heap.new) state.old state.new (state_of W.contents output.old) (state_of W.contents output.new) }
    ensures keeps { Keeps state.old state.new }
    ensures kept { B.kept heap.new ≡ B.kept heap.old }
{
    let Some(datum) = pop_datum(state) else {
        return Err(Stop::Lost);
    };
    match print_datum(heap, &datum, output) {
        Ok(()) => {
            let_go_datum(heap, datum);
            state.advance();
            Ok(())
        }
        Err(_) => Err(Stop::Refused),
    }
}
