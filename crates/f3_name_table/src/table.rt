//! From sources to the table of their names.

ghost use Rattle.std.specs.Prelude.{List, Ok};
ghost use Rattle.f3_places.specs.declared.source.Source.{Source};
ghost use Rattle.f3_parse.specs.Spells.{Parses};
ghost use Rattle.f3_name_table.specs.Answers.{Answers};

use crate::lines::table_text;
use f3_graph::{CheckFault, order};
use f3_names::names;
use f3_parse::parser::parse;
use f3_places::source::Source;
use f3_tree::program::Program;
use std::alloc::Global;

/// For each program unit in the order of their places its name, and a line for each name that is visible there: what it
/// means, the unit that holds that and its name there, whether it is protected, and in a module whether the name is
/// public or private (own rule).
///
/// Refused with the first break of phases 1 to 4; Memory where a growth of the host's memory was refused.
pub fn name_table(alloc: Global, sources: &[Source]) -> Result<String, CheckFault>
    ensures { Answers result sources.now }
{
    match parse(alloc, sources) {
        Ok(program) => table_of(alloc, &program),
        Err(fault) => Err(CheckFault::from(fault)),
    }
}

/// The table of the names of a program that was parsed.
fn table_of(alloc: Global, program: &Program) -> Result<String, CheckFault>
    ensures { (sources : List Source) → Parses (Ok program.now) sources → Answers result sources }
{
    let order = order(alloc, program)?;
    let names = names(alloc, program, &order)?;
    match table_text(alloc, program, &names) {
        Ok(text) => Ok(text),
        Err(_) => Err(CheckFault::Memory),
    }
}
