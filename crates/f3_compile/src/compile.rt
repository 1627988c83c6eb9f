//! From source bytes to the program that they spell.

ghost use Rattle.std.specs.Prelude.{◌≡◌, IfOk};
ghost use Rattle.f3_tree.specs.Tree.{view};
ghost use Rattle.f3_graph.specs.Order.{numbers_of};
ghost use Rattle.f3_names.specs.Tables.{AreNames, lookup_at};
ghost use Rattle.f3_accepted.specs.Types.{AreTypesAlong};
ghost use Rattle.f3_accepted.specs.Checked as accepted;
ghost use Rattle.f3_elaboration.specs.DeclaredViews.{program_view};
ghost use Rattle.f3_elaboration.specs.Program.{elaborated};
ghost use Rattle.f3_compile.specs.Compiled.{program_of};
ghost use Rattle.f3_compile.specs.Compiles.{Compiles};

use crate::compiled::Compiled;
use f3_accepted::check::check;
use f3_accepted::checked::{Checked, Parts};
use f3_elaborate::elaborate::elaborate;
use f3_graph::CheckFault;
use f3_places::source::Source;
use std::alloc::{AllocError, Global};

/// The program that the sources spell, ready to run, where it breaks no rule. Else the refusal of the first break by phase,
/// place and the order of the rules, or Memory where a growth was refused.
pub fn compile(alloc: Global, sources: &[Source]) -> Result<Compiled, CheckFault>
    ensures { Compiles sources.now result }
{
    let checked = check(alloc, sources)?;
    match elaborated(alloc, checked) {
        Ok(compiled) => Ok(compiled),
        Err(_) => Err(CheckFault::Memory),
    }
}

/// The elaborated program of what was accepted.
fn elaborated(alloc: Global, checked: Checked) -> Result<Compiled, AllocError>
    requires names { AreNames (view (accepted.program_of checked)) (accepted.names_of checked) }
    requires types { AreTypesAlong (view (accepted.program_of checked)) (lookup_at (accepted.names_of checked)) (numbers_of (accepted.order_of checked))
        (accepted.types_of checked) }
    ensures { IfOk result (λ c. program_view (program_of c)
        ≡ elaborated (view (accepted.program_of checked)) (lookup_at (accepted.names_of checked)) (numbers_of (accepted.order_of checked))) }
{
    let Parts {
        program,
        order,
        names,
        types,
        ..
    } = checked.parts();
    let made = elaborate(alloc, &program, &order, &names, types);
    drop(names);
    drop(order);
    drop(program);
    let program = made?;
    Ok(Compiled { program })
}
