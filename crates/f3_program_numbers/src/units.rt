//! The entities of units, in the order of their places or in another.

ghost use Rattle.std.specs.Prelude.{◌≡◌, ◌+◌, ◌++◌, ◌<◌, ◌^◌, ℕ, List, map, length, IfOk, OnOk};
ghost use Rattle.std.specs.List.{flat_map};
ghost use Rattle.f3_scopes.specs.Outlines.{Scope};
ghost use Rattle.f3_tree.specs.Tree.{unit_view};
ghost use Rattle.f3_graph.specs.Order.{numbers_of};
ghost use Rattle.f3_type_rules.specs.Associates.{constructs_of_block};
ghost use Rattle.f3_type_rules.specs.Members.{numbered, units_from};
ghost use Rattle.f3_type_rules.specs.Program.{units_in};
ghost use Rattle.f3_unit_rules.specs.Members.{AreFirsts};
ghost use Rattle.f3_unit_rules.specs.Units.{AreNumbers};
ghost use Rattle.f3_program_numbers.specs.Fitting.{Fits, AllFit};
ghost use Rattle.f3_program_numbers.specs.Walks.{keeps_all, statics_by, procedures_by, types_by, at_unit};

use crate::members::{add_members, add_procedures};
use crate::parts::{add_names, add_types, behind_declared};
use crate::wanted::Wanted;
use f3_graph::UnitOrder;
use f3_natures::constructs::constructs;
use f3_tree::program::{Unit, UnitKind};
use std::alloc::{AllocError, Global};

/// Whether variables of a unit that are not saved live for the whole run too.
fn keeps_all(kind: UnitKind) -> bool
    ensures { result ≡ keeps_all kind }
{
    match kind {
        UnitKind::Module => true,
        UnitKind::Program => false,
    }
}

/// The scope of the first procedure of a unit: it stands behind that of the unit and those of its constructs.
fn members_scope(alloc: Global, scope: usize, unit: &Unit) -> Result<usize, AllocError>
    requires { scope + 1 + length (constructs_of_block (unit_view unit.now).body) < 2 ^ 64 }
    ensures { IfOk result (λ n. n ≡ scope + 1 + length (constructs_of_block (unit_view unit.now).body)) }
{
    let constructs = constructs(alloc, &unit.body)?;
    Ok(scope + 1 + constructs.len())
}

/// Adds the variables of a unit and its procedures that live for the whole run.
fn add_statics(
    alloc: Global,
    found: &mut Vec<usize>,
    firsts: &[usize],
    scope: usize,
    unit: &Unit,
) -> Result<(), AllocError>
    requires { Fits firsts.now scope (unit_view unit.now) }
    ensures { OnOk result ((scopes : List Scope) → AreFirsts scopes firsts.now → found.new.items ≡ found.old.items ++ statics_by (numbered scopes scope (unit_view unit.now))) }
{
    let kept = Wanted {
        saved: true,
        unsaved: keeps_all(unit.kind),
        dummies: None,
        result_name: None,
    };
    add_names(found, kept, firsts[scope], &unit.part.specifications)?;
    let saved = Wanted {
        saved: true,
        unsaved: false,
        dummies: None,
        result_name: None,
    };
    let start = members_scope(alloc, scope, unit)?;
    add_members(alloc, found, saved, firsts, start, &unit.procedures)
}

/// Adds the procedures of a unit: they are its last entities.
fn add_unit_procedures(
    found: &mut Vec<usize>,
    firsts: &[usize],
    scope: usize,
    unit: &Unit,
) -> Result<(), AllocError>
    requires { Fits firsts.now scope (unit_view unit.now) }
    ensures { OnOk result ((scopes : List Scope) → AreFirsts scopes firsts.now → found.new.items ≡ found.old.items ++ procedures_by (numbered scopes scope (unit_view unit.now))) }
{
    let entity = behind_declared(firsts[scope], &unit.part.specifications);
    add_procedures(found, entity, &unit.procedures)
}

/// Adds the types of a unit.
fn add_unit_types(
    found: &mut Vec<usize>,
    firsts: &[usize],
    scope: usize,
    unit: &Unit,
) -> Result<(), AllocError>
    requires { Fits firsts.now scope (unit_view unit.now) }
    ensures { OnOk result ((scopes : List Scope) → AreFirsts scopes firsts.now → found.new.items ≡ found.old.items ++ types_by (numbered scopes scope (unit_view unit.now))) }
{
    add_types(found, firsts[scope], &unit.part.specifications)
}

/// Adds the types of the unit of this number, where there is one.
fn add_types_at(
    found: &mut Vec<usize>,
    numbers: &[usize],
    firsts: &[usize],
    number: usize,
    list: &[Unit],
) -> Result<(), AllocError>
    requires fit { AllFit firsts.now numbers.now (map unit_view list.now) }
    requires numbers { length numbers.now ≡ length list.now }
    ensures { OnOk result ((scopes : List Scope) → AreFirsts scopes firsts.now → AreNumbers scopes numbers.now (map unit_view list.now) → found.new.items ≡ found.old.items ++ at_unit types_by (units_from scopes 0 (map unit_view list.now)) number) }
{
    match list.get(number) {
        Some(unit) => add_unit_types(found, firsts, numbers[number], unit),
        None => Ok(()),
    }
}

/// The variables of a program that live for the whole run, in the order of their places. The scopes of the units and the first entity of
/// each scope are given.
///
/// # Errors
///
/// Where memory runs out.
pub fn statics(
    alloc: Global,
    numbers: &[usize],
    firsts: &[usize],
    list: &[Unit],
) -> Result<Vec<usize>, AllocError>
    requires fit { AllFit firsts.now numbers.now (map unit_view list.now) }
    requires numbers { length numbers.now ≡ length list.now }
    ensures { IfOk result (λ v. (scopes : List Scope) → AreFirsts scopes firsts.now → AreNumbers scopes numbers.now (map unit_view list.now) → v.items ≡ flat_map statics_by (units_from scopes 0 (map unit_view list.now))) }
{
    let mut found = Vec::new(alloc);
    for number in 0..list.len() {
        add_statics(alloc, &mut found, firsts, numbers[number], &list[number])?;
    }
    Ok(found)
}

/// The procedures of a program, in the order of their places.
///
/// # Errors
///
/// Where memory runs out.
pub fn procedures(
    alloc: Global,
    numbers: &[usize],
    firsts: &[usize],
    list: &[Unit],
) -> Result<Vec<usize>, AllocError>
    requires fit { AllFit firsts.now numbers.now (map unit_view list.now) }
    requires numbers { length numbers.now ≡ length list.now }
    ensures { IfOk result (λ v. (scopes : List Scope) → AreFirsts scopes firsts.now → AreNumbers scopes numbers.now (map unit_view list.now) → v.items ≡ flat_map procedures_by (units_from scopes 0 (map unit_view list.now))) }
{
    let mut found = Vec::new(alloc);
    for number in 0..list.len() {
        add_unit_procedures(&mut found, firsts, numbers[number], &list[number])?;
    }
    Ok(found)
}

/// The types of a program, in this order of its units.
///
/// # Errors
///
/// Where memory runs out.
pub fn types(
    alloc: Global,
    numbers: &[usize],
    firsts: &[usize],
    order: &UnitOrder,
    list: &[Unit],
) -> Result<Vec<usize>, AllocError>
    requires fit { AllFit firsts.now numbers.now (map unit_view list.now) }
    requires numbers { length numbers.now ≡ length list.now }
    ensures { IfOk result (λ v. (scopes : List Scope) → AreFirsts scopes firsts.now → AreNumbers scopes numbers.now (map unit_view list.now) → v.items ≡ flat_map types_by (units_in (units_from scopes 0 (map unit_view list.now)) (numbers_of order.now))) }
{
    let mut found = Vec::new(alloc);
    for unit in &order.units {
        add_types_at(&mut found, numbers, firsts, unit.number, list)?;
    }
    Ok(found)
}
