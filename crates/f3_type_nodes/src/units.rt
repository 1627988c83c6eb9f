//! The types of the units of a program (11).

ghost use Rattle.std.specs.Prelude.{◌≡◌, ◌+◌, ◌<◌, ◌^◌, ◌++◌, List, map, length, IfOk, OnOk};
ghost use Rattle.std.specs.List.{flat_map};
ghost use Rattle.f3_scopes.specs.Outlines.{Scope};
ghost use Rattle.f3_scopes.specs.Scopes.{scopes_of};
ghost use Rattle.f3_tree.specs.Tree.{unit_view, view};
ghost use Rattle.f3_graph.specs.Order.{numbers_of};
ghost use Rattle.f3_names.specs.Tables.{AreNames};
ghost use Rattle.f3_type_rules.specs.Associates.{constructs_of_block};
ghost use Rattle.f3_type_rules.specs.Members.{numbered, units_from};
ghost use Rattle.f3_type_rules.specs.Program.{units_in};
ghost use Rattle.f3_part_rules.specs.Members.{AreFirsts};
ghost use Rattle.f3_elaboration.specs.Declarations as elaborated;
ghost use Rattle.f3_elaboration.specs.DeclaredViews.{derived_view};
ghost use Rattle.f3_elaboration.specs.Numbers.{definitions, Inner};
ghost use Rattle.f3_declaration_nodes.specs.Stands.{Stands};
ghost use Rattle.f3_type_nodes.specs.Inner.Units.{definitions_at, Fits, AllFit, AreHere};

use crate::definitions::{add_definitions, behind_declared};
use f3_declaration_nodes::whole::Whole;
use f3_finals::candidate::candidates;
use f3_graph::UnitOrder;
use f3_names::table::Names;
use f3_natures::constructs::constructs;
use f3_part_rules::finalizers::Finalizers;
use f3_program::declarations::Derived;
use f3_tree::program::{Program, Unit};
use f3_unit_rules::firsts::firsts;
use std::alloc::{AllocError, Global};

/// The scope of the first procedure of a unit: it stands behind that of the unit and those of its constructs.
fn members_scope(alloc: Global, scope: usize, given: &Unit) -> Result<usize, AllocError>
    requires { scope + 1 + length (constructs_of_block (unit_view given.now).body) < 2 ^ 64 }
    ensures { IfOk result (λ n. n ≡ scope + 1 + length (constructs_of_block (unit_view given.now).body)) }
{
    let constructs = constructs(alloc, &given.body)?;
    Ok(scope + 1 + constructs.len())
}

/// Adds the types that a unit defines, which has this scope.
fn add_unit(
    alloc: Global,
    whole: Whole<'_>,
    scope: usize,
    firsts: &[usize],
    found: &mut Vec<Derived>,
    given: &Unit,
) -> Result<(), AllocError>
    requires { Fits firsts.now scope (unit_view given.now) }
    ensures { OnOk result ((w : elaborated.Whole) (inner : Inner) (scopes : List Scope) → Stands whole.entry w inner → AreFirsts scopes firsts.now → map derived_view found.new.items ≡ map derived_view found.old.items ++ map (elaborated.derived w) (definitions (numbered scopes scope (unit_view given.now)))) }
{
    let first = firsts[scope];
    let start = members_scope(alloc, scope, given)?;
    let list = given.part.specifications.as_slice();
    let procedures = given.procedures.as_slice();
    let candidates = candidates(alloc, whole.known, whole.scenery, start, procedures)?;
    let finalizers = Finalizers {
        first: behind_declared(first, list),
        candidates: &candidates,
    };
    add_definitions(alloc, whole, finalizers, scope, first, found, list)?;
    Ok(())
}

/// Adds the types that the unit of this number defines, where there is one.
fn add_unit_at(
    alloc: Global,
    whole: Whole<'_>,
    numbers: &[usize],
    firsts: &[usize],
    found: &mut Vec<Derived>,
    number: usize,
    list: &[Unit],
) -> Result<(), AllocError>
    requires fit { AllFit firsts.now numbers.now (map unit_view list.now) }
    requires numbers { length numbers.now ≡ length list.now }
    ensures { OnOk result ((w : elaborated.Whole) (inner : Inner) (scopes : List Scope) → AreHere whole.entry firsts.now numbers.now (map unit_view list.now) w inner scopes → map derived_view found.new.items ≡ map derived_view found.old.items ++ map (elaborated.derived w) (definitions_at (units_from scopes 0 (map unit_view list.now)) number)) }
{
    match list.get(number) {
        Some(given) => {
            add_unit(alloc, whole, numbers[number], firsts, found, given)?;
            Ok(())
        }
        None => Ok(()),
    }
}

/// The types that the units define, in this order of the units.
fn types_along(
    alloc: Global,
    whole: Whole<'_>,
    numbers: &[usize],
    firsts: &[usize],
    order: &UnitOrder,
    list: &[Unit],
) -> Result<Vec<Derived>, AllocError>
    requires fit { AllFit firsts.now numbers.now (map unit_view list.now) }
    requires numbers { length numbers.now ≡ length list.now }
    ensures { IfOk result (λ v. (w : elaborated.Whole) (inner : Inner) (scopes : List Scope) → AreHere whole.entry firsts.now numbers.now (map unit_view list.now) w inner scopes → map derived_view v.items ≡ map (elaborated.derived w) (flat_map definitions (units_in (units_from scopes 0 (map unit_view list.now)) (numbers_of order.now)))) }
{
    let mut found = Vec::new(alloc);
    for unit in &order.units {
        add_unit_at(alloc, whole, numbers, firsts, &mut found, unit.number, list)?;
    }
    Ok(found)
}

/// The derived types of a program, along an order of its units: those of a unit in the order of their definitions, each with its
/// components and its final subroutines (4.5). Where used modules come first, a type stands behind those of its components.
///
/// # Errors
///
/// Where memory runs out.
pub fn types(
    alloc: Global,
    whole: Whole<'_>,
    program: &Program,
    order: &UnitOrder,
    names: &Names,
) -> Result<Vec<Derived>, AllocError>
    requires { AreNames (view program.now) names.now }
    ensures { IfOk result (λ v. (w : elaborated.Whole) (inner : Inner) → Stands whole.entry w inner → map derived_view v.items ≡ map (elaborated.derived w) (flat_map definitions (units_in (units_from (scopes_of (view program.now)) 0 (view program.now).units) (numbers_of order.now)))) }
{
    let firsts = firsts(alloc, names.outlines())?;
    let numbers = names.unit_scopes();
    let found = types_along(alloc, whole, numbers, &firsts, order, &program.units)?;
    Ok(found)
}
