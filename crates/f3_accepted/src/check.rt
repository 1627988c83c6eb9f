//! The check of sources against all rules.

ghost use Rattle.std.specs.Prelude.{IfOk};
ghost use Rattle.f3_rules.specs.declared.breaks.Break.{Break};
ghost use Rattle.f3_tree.specs.Tree.{view};
ghost use Rattle.f3_graph.specs.Order.{IsOrder, numbers_of};
ghost use Rattle.f3_names.specs.Answers.{BreaksOfNames};
ghost use Rattle.f3_names.specs.Tables.{AreNames, lookup_at};
ghost use Rattle.f3_types.specs.Types.{AreTypesAlong};
ghost use Rattle.f3_accepted.specs.Refusals.{Checks};
ghost use Rattle.f3_accepted.specs.Inner.Phases.{Named, Defined};

use crate::checked::Checked;
use f3_graph::{CheckFault, UnitOrder, order};
use f3_names::table::Names;
use f3_parse::parser::parse;
use f3_places::source::Source;
use f3_tree::program::Program;
use f3_types::table::Types;
use f3_types::typed::{definitions, typed};
use std::alloc::Global;

/// The program that the sources spell, where it breaks no rule; else the refusal of the first break of all phases. Memory
/// where a growth of the host's memory was refused.
pub fn check(alloc: Global, sources: &[Source]) -> Result<Checked, CheckFault>
    ensures { Checks result sources.now }
{
    let program = match parse(alloc, sources) {
        Ok(program) => program,
        Err(fault) => return Err(CheckFault::from(fault)),
    };
    match named(alloc, &program) {
        Ok((order, names, types)) => Ok(Checked {
            program,
            order,
            names,
            types,
        }),
        Err(fault) => {
            drop(program);
            Err(fault)
        }
    }
}

/// The order of a program's units, what its names mean and what its entities are, where it breaks no rule of phases 2 to 7;
/// else the refusal of the first break.
fn named(alloc: Global, program: &Program) -> Result<(UnitOrder, Names, Types), CheckFault>
    ensures { Named (view program.now) result }
{
    let order = order(alloc, program)?;
    let names = f3_names::names(alloc, program, &order)?;
    match defined(alloc, program, &order, &names) {
        Ok(types) => Ok((order, names, types)),
        Err(fault) => {
            drop(names);
            Err(fault)
        }
    }
}

/// What the entities of a program are, where it breaks no rule of phases 5 to 7; else the refusal of the first break.
fn defined(
    alloc: Global,
    program: &Program,
    order: &UnitOrder,
    names: &Names,
) -> Result<Types, CheckFault>
    requires names { AreNames (view program.now) names.now }
    requires order { IsOrder (view program.now) order.now }
    requires unbroken { (b : Break) → BreaksOfNames (view program.now) b → ⊥ }
    ensures answer { Defined (view program.now) result }
    ensures along { IfOk result (λ types. AreTypesAlong (view program.now) (lookup_at names.now) (numbers_of order.now) types) }
{
    let types = typed(alloc, program, order, names)?;
    match definitions(alloc, program, &types) {
        Ok(()) => Ok(types),
        Err(fault) => {
            drop(types);
            Err(fault)
        }
    }
}
