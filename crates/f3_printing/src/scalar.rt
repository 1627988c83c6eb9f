//! A scalar behind a blank.

ghost use Rattle.std.specs.Prelude.{OnOk, OnErr};
ghost use Rattle.f3_program.specs.declared.declarations.Constant.TheVariants.{Number};
ghost use Rattle.f3_output.specs.Output.{state_of, Wrote, Faulted};
ghost use Rattle.f3_meaning_whole.specs.Arithmetic.{constant_value};
ghost use Rattle.f3_meaning_whole.specs.Exec.{text_of};

use f3_output::output::{Output, Refused};
use f3_program::declarations::Constant;
use itoa::Buffer;
use std::io::Write;

/// Writes a scalar as a list-directed PRINT does: a blank, then `T` or `F`, or the least decimal digits of a number, behind a
/// minus where it is negative (own rule for ISO/IEC 1539-1:2004, 10.9.2).
///
/// `Refused` where the writer failed or took no byte: it has taken a front of the text.
pub fn print_scalar<W: Write>(output: &mut Output<W>, scalar: Constant) -> Result<(), Refused>
    ensures all { OnOk result (Wrote (state_of W.contents output.old) (state_of W.contents output.new) (text_of (constant_value scalar))) }
    ensures front { OnErr result (Faulted (state_of W.contents output.old) (state_of W.contents output.new) (text_of (constant_value scalar))) }
{
    match scalar {
        Constant::Number(number) => print_number(output, number),
        Constant::Truth(true) => output.write(b" T"),
        Constant::Truth(false) => output.write(b" F"),
    }
}

/// Writes a number behind a blank.
#[tactic(auto, using(f3_output::proofs::Outputs::wrote_more))]
fn print_number<W: Write>(output: &mut Output<W>, number: i64) -> Result<(), Refused>
    ensures all { OnOk result (Wrote (state_of W.contents output.old) (state_of W.contents output.new) (text_of (constant_value (Number number)))) }
    ensures front { OnErr result (Faulted (state_of W.contents output.old) (state_of W.contents output.new) (text_of (constant_value (Number number)))) }
{
    let mut buffer = Buffer::new();
    output.write(b" ")?;
    output.write(buffer.format(number).as_bytes())
}
