//! Values as PRINT writes them.

ghost use Rattle.std.specs.Prelude.{◌≡◌, OnOk, OnErr, flat_map};
ghost use Rattle.f3_output.specs.Output.{state_of, Wrote, Faulted};
ghost use Rattle.f3_meaning_whole.specs.Value as m;
ghost use Rattle.f3_meaning_whole.specs.Ran.{prints_bytes};
ghost use Rattle.f3_meaning_whole.specs.Exec.{text_of, print_value};
ghost use Rattle.f3_data.specs.Values.{value_of, values_of};
ghost use Rattle.f3_shaping.specs.Results.{value_text};

use f3_data::value::Value;
use f3_output::output::{Output, Refused};
use f3_printing::scalar::print_scalar;
use f3_program::declarations::Constant;
use std::io::Write;

/// Writes a scalar behind a blank, and nothing for what is none.
fn print_element<W: Write>(output: &mut Output<W>, value: &Value) -> Result<(), Refused>
    ensures all { OnOk result (Wrote (state_of W.contents output.old) (state_of W.contents output.new) (text_of (value_of value.now))) }
    ensures front { OnErr result (Faulted (state_of W.contents output.old) (state_of W.contents output.new) (text_of (value_of value.now))) }
{
    match value {
        Value::Number(number) => print_scalar(output, Constant::Number(*number)),
        Value::Truth(truth) => print_scalar(output, Constant::Truth(*truth)),
        _ => output.write(b""),
    }
}

/// Writes scalars one after the other, each behind a blank.
fn print_elements<W: Write>(output: &mut Output<W>, values: &[Value]) -> Result<(), Refused>
    ensures all { OnOk result (Wrote (state_of W.contents output.old) (state_of W.contents output.new) (flat_map text_of (values_of values.now))) }
    ensures front { OnErr result (Faulted (state_of W.contents output.old) (state_of W.contents output.new) (flat_map text_of (values_of values.now))) }
{
    for value in values {
        print_element(output, value)?;
    }
    Ok(())
}

/// Writes a value as a list-directed PRINT does: a scalar, or the elements of an array in array element order, each behind a
/// blank (own rule for ISO/IEC 1539-1:2004, 10.9.2).
///
/// `Refused` where the writer failed or took no byte: it has taken a front of the text.
pub fn print_value<W: Write>(output: &mut Output<W>, value: &Value) -> Result<(), Refused>
    ensures all { OnOk result (Wrote (state_of W.contents output.old) (state_of W.contents output.new) (value_text (value_of value.now))) }
    ensures front { OnErr result (Faulted (state_of W.contents output.old) (state_of W.contents output.new) (value_text (value_of value.now))) }
{
    match value {
        Value::Array(elements) => print_elements(output, &elements.values),
        _ => print_element(output, value),
    }
}

/// A law: what the meaning prints of a value, part by part, are the bytes of `value_text`.
#[tactic(auto, using(crate::proofs::Prints::prints_text))]
pub fn bytes_are_printed()
    ensures { (v : m.Value) → print_value v ≡ prints_bytes (value_text v) }
{}
