//! The numbers of a program.

ghost use Rattle.std.specs.Prelude.{◌≡◌, ℕ, List, IfOk};
ghost use Rattle.f3_tree.specs.Tree.{view};
ghost use Rattle.f3_scopes.specs.Scopes.{scopes_of};
ghost use Rattle.f3_graph.specs.Order.{numbers_of as places_of};
ghost use Rattle.f3_names.specs.Tables.{AreNames};
ghost use Rattle.f3_type_rules.specs.Members.{Numbered, units_from};
ghost use Rattle.f3_type_rules.specs.Program.{units_in};
ghost use Rattle.f3_elaboration.specs.Numbers.{numbers_of};
ghost use Rattle.f3_numbers.specs.Agrees.{Agrees, nothing_inside};

use crate::filling::{add_procedures, add_statics, add_types};
use crate::units::{procedures, statics, types};
use f3_graph::UnitOrder;
use f3_names::table::Names;
use f3_numbers::numbers::Numbers;
use f3_tree::program::Program;
use f3_unit_rules::firsts::firsts;
use std::alloc::{AllocError, Global};

/// The numbers of the variables of a program that live for the whole run, of its procedures, and of its types, along an order of its
/// units in which used modules come first.
///
/// # Errors
///
/// Where memory runs out.
pub fn program_numbers(
    alloc: Global,
    program: &Program,
    order: &UnitOrder,
    names: &Names,
) -> Result<Numbers, AllocError>
    requires { AreNames (view program.now) names.now }
    ensures { let units = units_from (scopes_of (view program.now)) 0 (view program.now).units in IfOk result (λ n. Agrees n (numbers_of units (units_in units (places_of order.now))) nothing_inside) }
{
    let firsts = firsts(alloc, names.outlines())?;
    let scopes = names.unit_scopes();
    let statics = statics(alloc, scopes, &firsts, &program.units)?;
    let procedures = procedures(alloc, scopes, &firsts, &program.units)?;
    let types = types(alloc, scopes, &firsts, order, &program.units)?;
    let mut numbers = Numbers::new(alloc);
    add_statics(&mut numbers, &statics)?;
    add_procedures(&mut numbers, &procedures)?;
    add_types(&mut numbers, &types)?;
    Ok(numbers)
}
