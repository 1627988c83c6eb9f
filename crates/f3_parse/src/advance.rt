//! One statement behind others.

ghost use Rattle.std.specs.Prelude.{◌≡◌, Some};
ghost use Rattle.f3_rules.specs.Least.{earlier_of};
ghost use Rattle.f3_words.specs.Lines.{line_view};
ghost use Rattle.f3_units.specs.Machine.{builder_view};
ghost use Rattle.f3_parse.specs.Phase.{first_place};
ghost use Rattle.f3_parse.specs.Inner.Steps.{Advances};

use f3_blocks::error::StepError;
use f3_forms::statements::statement;
use f3_places::source::Place;
use f3_rules::breaks::{Break, is_before};
use f3_rules::rule::Rule;
use f3_units::builder::Builder;
use f3_words::error::ReadError;
use f3_words::item::Item;
use f3_words::line::{Line, broken};
use std::alloc::Global;

/// Why the statements cannot go on with one.
#[derive(Clone, Copy, PartialEq, Eq, Debug)]
pub enum LineFault {
    /// A growth of the host's memory was refused.
    Memory,
    /// The first break there.
    Broken(Break),
}

/// The place of the first token; no place, where there is none.
pub fn first_place(items: &[Item]) -> Place
    ensures { result ≡ first_place items.now }
{
    match items {
        [item, ..] => item.place,
        [] => Place {
            file: 0,
            line: 0,
            column: 0,
        },
    }
}

/// The earlier of two breaks, of which the first may be none.
fn first_of(fault: Option<Break>, other: Break) -> Break
    ensures { earlier_of fault (Some other) ≡ Some result }
{
    match fault {
        None => other,
        Some(found) => {
            if is_before(other, found) {
                other
            } else {
                found
            }
        }
    }
}

/// Goes on with a statement. `Memory` where a growth of the host's memory was refused, `Broken` of the first of what it
/// breaks: S3 and S4 at a token; S5 where it has no form, S6 where units cannot go on with it, S8 where it opens a 65th
/// construct, each at its first token (own rules). Behind a fault the builder is not to be used again: it may have lost
/// statements.
pub fn advance(alloc: Global, builder: &mut Builder, line: Line) -> Result<(), LineFault>
    ensures { Advances result (builder_view builder.old) (builder_view builder.new) (line_view line) }
{
    let place = first_place(&line.items);
    match statement(alloc, &line.items) {
        Err(ReadError::Memory) => Err(LineFault::Memory),
        Err(ReadError::NoForm) => {
            Err(LineFault::Broken(first_of(line.fault, broken(Rule::S5, place))))
        }
        Ok(form) => match builder.step(alloc, place, form) {
            Err(StepError::Memory) => Err(LineFault::Memory),
            Err(StepError::OutOfPlace) => {
                Err(LineFault::Broken(first_of(line.fault, broken(Rule::S6, place))))
            }
            Err(StepError::TooDeep) => {
                Err(LineFault::Broken(first_of(line.fault, broken(Rule::S8, place))))
            }
            Ok(_) => match line.fault {
                Some(found) => Err(LineFault::Broken(found)),
                None => Ok(()),
            },
        },
    }
}
