//! What the names of a program stand for.

ghost use Rattle.f3_rules.specs.declared.breaks.Break.{Break};
ghost use Rattle.f3_tree.specs.Tree.{view};
ghost use Rattle.f3_graph.specs.Breaks.{UnitBreaks};
ghost use Rattle.f3_graph.specs.Order.{IsOrder};
ghost use Rattle.f3_names.specs.Answers.{NamesAnswer};

use crate::describing::described;
use crate::numbering::{scope_order, unit_numbers};
use crate::table::Names;
use f3_graph::{CheckFault, UnitOrder, refusal_of};
use f3_name_rules::first_name_break;
use f3_scopes::scopes::outlines;
use f3_tree::program::Program;
use std::alloc::Global;

/// The entities of a program and what each of its scopes sees of them (ISO/IEC 1539-1:2004, 11.2 and 16.4.1.3), along an
/// order of its units in which used modules come first.
///
/// Refused: a rule on names (N1 to N11, as far as they speak of specification parts and headers) is broken; it is the
/// first such break by phase, then place. Memory: a growth of the host's memory was refused.
pub fn names(alloc: Global, program: &Program, order: &UnitOrder) -> Result<Names, CheckFault>
    requires order { IsOrder (view program.now) order.now }
    requires units { (b : Break) → UnitBreaks (view program.now) b → ⊥ }
    ensures { NamesAnswer (view program.now) result }
{
    let outlines = outlines(alloc, program)?;
    let units = unit_numbers(alloc, &outlines)?;
    let order = scope_order(alloc, &units, &order.units)?;
    let tables = f3_access::tables(alloc, &outlines, &order)?;
    match first_name_break(alloc, &outlines, &tables, &program.names)? {
        Some(found) => {
            let refusal = refusal_of(alloc, &program.names, found)?;
            Err(CheckFault::Refused(refusal))
        }
        None => {
            let entities = described(alloc, &outlines)?;
            let texts = program.names.clone()?;
            Ok(Names::new(outlines, entities, tables, texts, units))
        }
    }
}
