//! The lines of a listing.

ghost use Rattle.std.specs.Prelude.{◌≡◌, ◌++◌, pos, OnOk, IfOk, string_bytes};
ghost use Rattle.std.specs.List.{flat_map};
ghost use Rattle.f3_listing.specs.Listing.{operand_text, operation, operation_text, joined, with_initial, line_text, listing_text};
ghost use Rattle.f3_listing.specs.Inner.Shown.{numbers, operation_of};

use crate::operation::{Operands, Shown, typed};
use crate::table::shown;
use f3_gen_values::line::Line;
use std::alloc::{AllocError, Global};

/// Adds a count as an operand.
fn add_count(text: &mut String, count: usize) -> Result<(), AllocError>
    ensures { OnOk result (string_bytes text.new ≡ string_bytes text.old ++ operand_text (pos count)) }
{
    write!(text, " {count}")
}

/// Adds an integer as an operand.
fn add_integer(text: &mut String, integer: i64) -> Result<(), AllocError>
    ensures { OnOk result (string_bytes text.new ≡ string_bytes text.old ++ operand_text integer) }
{
    write!(text, " {integer}")
}

/// Adds operands.
fn add_operands(text: &mut String, operands: Operands) -> Result<(), AllocError>
    ensures { OnOk result (string_bytes text.new ≡ string_bytes text.old ++ flat_map operand_text (numbers operands)) }
{
    match operands {
        Operands::None => Ok(()),
        Operands::Count(count) => add_count(text, count),
        Operands::Counts(first, second) => {
            add_count(text, first)?;
            add_count(text, second)
        }
        Operands::Integer(integer) => add_integer(text, integer),
        Operands::Integers(first, second) => {
            add_integer(text, first)?;
            add_integer(text, second)
        }
    }
}

/// Adds a name and its operands.
fn add_shown(text: &mut String, shown: &Shown) -> Result<(), AllocError>
    ensures { OnOk result (string_bytes text.new ≡ string_bytes text.old ++ operation_text (operation_of shown.now)) }
{
    let name = shown.name;
    let ending = shown.ending;
    write!(text, "{name}{ending}")?;
    add_operands(text, shown.operands)
}

/// Adds what is shown of two as one: both names, then the operands of both.
fn add_both(text: &mut String, first: &Shown, second: &Shown) -> Result<(), AllocError>
    ensures { OnOk result (string_bytes text.new ≡ string_bytes text.old ++ operation_text (joined (operation_of first.now) (operation_of second.now))) }
{
    let name = first.name;
    let ending = first.ending;
    write!(text, "{name}{ending}")?;
    let name = second.name;
    let ending = second.ending;
    write!(text, "{name}{ending}")?;
    add_operands(text, first.operands)?;
    add_operands(text, second.operands)
}

/// Adds what a line does.
fn add_operation(text: &mut String, line: &Line) -> Result<(), AllocError>
    ensures { OnOk result (string_bytes text.new ≡ string_bytes text.old ++ operation_text (with_initial (operation line.now.act) line.now.initial)) }
{
    let shown = shown(line.act);
    match line.initial {
        None => add_shown(text, &shown),
        Some(base) => add_both(text, &shown, &typed("_initial", base)),
    }
}

/// Adds a line and its number.
fn add_line(text: &mut String, number: usize, line: &Line) -> Result<(), AllocError>
    ensures { OnOk result (string_bytes text.new ≡ string_bytes text.old ++ line_text number line.now) }
{
    write!(text, "{number} ")?;
    add_operation(text, line)?;
    writeln!(text)
}

/// The text that shows code (own rule): a line for each instruction, in order: its number from 0, its name, and its operands
/// in decimal, a blank before each. The type whose initial value a line takes is a part of the name; the places that errors
/// tell are not shown. It takes time linear in the length of the text.
///
/// AllocError: a growth of the host's memory was refused.
pub fn listing(alloc: Global, lines: &[Line]) -> Result<String, AllocError>
    ensures { IfOk result (λ text. string_bytes text ≡ listing_text lines.now) }
{
    let mut text = String::new(alloc);
    for (number, line) in lines.iter().enumerate() {
        add_line(&mut text, number, line)?;
    }
    Ok(text)
}
