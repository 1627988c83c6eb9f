//! Units in order (11).

ghost use Rattle.std.specs.Prelude.{◌≡◌, ◌+◌, ◌<◌, ◌≤◌, ◌^◌, ℕ, List, map, length, vec_len, IfOk, OnOk};
ghost use Rattle.std.specs.List.{flat_map};
ghost use Rattle.f3_access.specs.Access.{first_entity};
ghost use Rattle.f3_scopes.specs.Outlines.{Scope};
ghost use Rattle.f3_scopes.specs.Scopes.{declared_in};
ghost use Rattle.f3_graph.specs.Order.{numbers_of};
ghost use Rattle.f3_tree.specs.Declarations.{specification_view};
ghost use Rattle.f3_tree.specs.Tree.{unit_view};
ghost use Rattle.f3_typed_parts.specs.Noted.{noted};
ghost use Rattle.f3_type_rules.specs.Associates.{constructs_of_block};
ghost use Rattle.f3_type_rules.specs.Declarations.{specification_rows, specification_next, behind_part, unit_rows, unit_next};
ghost use Rattle.f3_type_rules.specs.Members.{Member, numbered, units_from};
ghost use Rattle.f3_type_rules.specs.Program.{units_in};
ghost use Rattle.f3_type_rules.specs.Scene.{Scene};
ghost use Rattle.f3_type_rules.specs.Walks.{after, along, Known as Grown};
ghost use Rattle.f3_entities.specs.Growth.{Stands};
ghost use Rattle.f3_finals.specs.Candidates.{behind_procedures};
ghost use Rattle.f3_part_rules.specs.Finalizers.{Finalize};
ghost use Rattle.f3_part_rules.specs.Members.{AreFirsts};
ghost use Rattle.f3_part_rules.specs.Room.{HasRoom, IsBehind};
ghost use Rattle.f3_unit_rules.specs.Units.{UnitFits, UnitsFit, AreNumbers};
ghost use Rattle.f3_unit_rules.specs.Inner.Steps.{part_spot, part_rows, found_at};

use f3_declared::spots::{Spot, counted_listings};
use f3_entities::growth::Growth;
use f3_finals::candidate::candidates;
use f3_graph::UnitOrder;
use f3_natures::constructs::constructs;
use f3_part_rules::finalizers::Finalizers;
use f3_part_rules::members::members;
use f3_part_rules::specifications::specifications;
use f3_rules::breaks::Break;
use f3_tree::declaration::Specification;
use f3_tree::program::Unit;
use std::alloc::{AllocError, Global};

/// How many entities a statement of a specification part declares.
fn declared_by(specification: &Specification) -> usize
    ensures { result ≡ length (declared_in (specification_view specification.now)) }
{
    match specification {
        Specification::Declaration(declaration) => declaration.entities.len(),
        Specification::Type(_) => 1,
        Specification::Access(_) => 0,
        Specification::Protected(_, _) => 0,
        Specification::Save(_) => 0,
    }
}

/// The entity behind those that a specification part declares, of which this is the first.
fn behind_declared(first: usize, list: &[Specification]) -> usize
    requires { first + length (flat_map declared_in (map specification_view list.now)) < 2 ^ 64 }
    ensures { result ≡ first + length (flat_map declared_in (map specification_view list.now)) }
{
    let mut next = first;
    for specification in list {
        next += declared_by(specification);
    }
    next
}

/// The scope of the first procedure of a unit: it stands behind that of the unit and those of its constructs.
fn members_scope(alloc: Global, scope: usize, given: &Unit) -> Result<usize, AllocError>
    requires { scope + 1 + length (constructs_of_block (unit_view given.now).body) < 2 ^ 64 }
    ensures { IfOk result (λ n. n ≡ scope + 1 + length (constructs_of_block (unit_view given.now).body)) }
{
    let constructs = constructs(alloc, &given.body)?;
    Ok(scope + 1 + constructs.len())
}

/// Notes what is wrong with the statements of a unit's specification part, and makes known what they declare.
fn statements(
    alloc: Global,
    growth: &mut Growth<'_>,
    scope: usize,
    finalizers: Finalizers<'_>,
    first: &mut Option<Break>,
    list: &[Specification],
) -> Result<(), AllocError>
    requires { HasRoom growth.old (length (flat_map declared_in (map specification_view list.now))) }
    ensures noted { OnOk result ((s : Scene) → (k : Grown) → (ms : List Member) → Stands s growth.old k → Finalize s finalizers.entry ms → first.new ≡ noted first.old (along (specification_rows (part_spot s scope (map specification_view list.now)) ms) (specification_next (part_spot s scope (map specification_view list.now))) k (map specification_view list.now))) }
    ensures stands { OnOk result ((s : Scene) → (k : Grown) → Stands s growth.old k → Stands s growth.new (after (specification_next (part_spot s scope (map specification_view list.now))) k (map specification_view list.now))) }
    ensures behind { OnOk result (IsBehind growth.old growth.new (length (flat_map declared_in (map specification_view list.now)))) }
{
    let listings = counted_listings(alloc, list)?;
    let spot = Spot {
        unit: scope,
        scope,
        is_type: false,
        is_pure: false,
        dummies: None,
        result_name: None,
        listed: Some(&listings),
    };
    specifications(alloc, growth, &spot, finalizers, first, list)?;
    Ok(())
}

/// Notes what is wrong with the specification part of a unit, where this entity is the first in it and this scope that of its first
/// procedure, and makes known what it declares.
fn part(
    alloc: Global,
    growth: &mut Growth<'_>,
    scope: usize,
    entity: usize,
    start: usize,
    first: &mut Option<Break>,
    given: &Unit,
) -> Result<(), AllocError>
    requires values { entity + length (flat_map declared_in (unit_view given.now).part.specifications) ≤ vec_len growth.old.known.values }
    requires cells { entity + length (flat_map declared_in (unit_view given.now).part.specifications) ≤ vec_len growth.old.cells }
    requires start { start ≡ scope + 1 + length (constructs_of_block (unit_view given.now).body) }
    requires end { behind_procedures start (unit_view given.now).procedures < 2 ^ 64 }
    ensures noted { OnOk result ((s : Scene) → (k : Grown) → (scopes : List Scope) → Stands s growth.old k → entity ≡ first_entity scopes scope → first.new ≡ noted first.old (part_rows s k (numbered scopes scope (unit_view given.now)))) }
    ensures stands { OnOk result ((s : Scene) → (k : Grown) → (scopes : List Scope) → Stands s growth.old k → entity ≡ first_entity scopes scope → Stands s growth.new (behind_part s (numbered scopes scope (unit_view given.now)) k)) }
    ensures values { OnOk result (vec_len growth.new.known.values ≡ vec_len growth.old.known.values) }
    ensures cells { OnOk result (vec_len growth.new.cells ≡ vec_len growth.old.cells) }
{
    let list = given.part.specifications.as_slice();
    let procedures = given.procedures.as_slice();
    let candidates = candidates(alloc, &growth.known, growth.scenery, start, procedures)?;
    growth.next = entity;
    let finalizers = Finalizers {
        first: behind_declared(entity, list),
        candidates: &candidates,
    };
    statements(alloc, growth, scope, finalizers, first, list)?;
    Ok(())
}

/// Notes what is wrong with the specification part of a unit, which has this scope, and with its procedures, and makes known what
/// they declare.
fn unit(
    alloc: Global,
    growth: &mut Growth<'_>,
    scope: usize,
    firsts: &[usize],
    first: &mut Option<Break>,
    given: &Unit,
) -> Result<(), AllocError>
    requires room { vec_len growth.old.cells ≡ vec_len growth.old.known.values }
    requires fit { UnitFits firsts.now (vec_len growth.old.known.values) scope (unit_view given.now) }
    ensures noted { OnOk result ((s : Scene) → (k : Grown) → (scopes : List Scope) → Stands s growth.old k → AreFirsts scopes firsts.now → first.new ≡ noted first.old (unit_rows s k (numbered scopes scope (unit_view given.now)))) }
    ensures stands { OnOk result ((s : Scene) → (k : Grown) → (scopes : List Scope) → Stands s growth.old k → AreFirsts scopes firsts.now → Stands s growth.new (unit_next s k (numbered scopes scope (unit_view given.now)))) }
    ensures values { OnOk result (vec_len growth.new.known.values ≡ vec_len growth.old.known.values) }
    ensures cells { OnOk result (vec_len growth.new.cells ≡ vec_len growth.old.cells) }
{
    let entity = firsts[scope];
    let start = members_scope(alloc, scope, given)?;
    part(alloc, growth, scope, entity, start, first, given)?;
    members(
        alloc,
        growth,
        scope,
        start,
        firsts,
        first,
        &given.procedures,
    )?;
    Ok(())
}

/// The same of the unit of this number, where there is one.
fn unit_at(
    alloc: Global,
    growth: &mut Growth<'_>,
    numbers: &[usize],
    firsts: &[usize],
    first: &mut Option<Break>,
    number: usize,
    list: &[Unit],
) -> Result<(), AllocError>
    requires room { vec_len growth.old.cells ≡ vec_len growth.old.known.values }
    requires fit { UnitsFit firsts.now (vec_len growth.old.known.values) numbers.now (map unit_view list.now) }
    requires numbers { length numbers.now ≡ length list.now }
    ensures noted { OnOk result ((s : Scene) → (k : Grown) → (scopes : List Scope) → Stands s growth.old k → AreFirsts scopes firsts.now → AreNumbers scopes numbers.now (map unit_view list.now) → first.new ≡ noted first.old (along (unit_rows s) (unit_next s) k (found_at (units_from scopes 0 (map unit_view list.now)) number))) }
    ensures stands { OnOk result ((s : Scene) → (k : Grown) → (scopes : List Scope) → Stands s growth.old k → AreFirsts scopes firsts.now → AreNumbers scopes numbers.now (map unit_view list.now) → Stands s growth.new (after (unit_next s) k (found_at (units_from scopes 0 (map unit_view list.now)) number))) }
    ensures values { OnOk result (vec_len growth.new.known.values ≡ vec_len growth.old.known.values) }
    ensures cells { OnOk result (vec_len growth.new.cells ≡ vec_len growth.old.cells) }
{
    match list.get(number) {
        Some(given) => {
            unit(alloc, growth, numbers[number], firsts, first, given)?;
            Ok(())
        }
        None => Ok(()),
    }
}

/// Notes what is wrong with the specification parts of units and of their procedures, in this order of the units, and makes known
/// what they declare. The scopes of the units and the first entity of each scope are given, and the tables have room for all that
/// the units declare.
///
/// # Errors
///
/// Where memory runs out.
pub fn units(
    alloc: Global,
    growth: &mut Growth<'_>,
    numbers: &[usize],
    firsts: &[usize],
    first: &mut Option<Break>,
    order: &UnitOrder,
    list: &[Unit],
) -> Result<(), AllocError>
    requires room { vec_len growth.old.cells ≡ vec_len growth.old.known.values }
    requires fit { UnitsFit firsts.now (vec_len growth.old.known.values) numbers.now (map unit_view list.now) }
    requires numbers { length numbers.now ≡ length list.now }
    ensures noted { OnOk result ((s : Scene) → (k : Grown) → (scopes : List Scope) → Stands s growth.old k → AreFirsts scopes firsts.now → AreNumbers scopes numbers.now (map unit_view list.now) → first.new ≡ noted first.old (along (unit_rows s) (unit_next s) k (units_in (units_from scopes 0 (map unit_view list.now)) (numbers_of order.now)))) }
    ensures stands { OnOk result ((s : Scene) → (k : Grown) → (scopes : List Scope) → Stands s growth.old k → AreFirsts scopes firsts.now → AreNumbers scopes numbers.now (map unit_view list.now) → Stands s growth.new (after (unit_next s) k (units_in (units_from scopes 0 (map unit_view list.now)) (numbers_of order.now)))) }
{
    for unit in &order.units {
        unit_at(alloc, growth, numbers, firsts, first, unit.number, list)?;
    }
    Ok(())
}
