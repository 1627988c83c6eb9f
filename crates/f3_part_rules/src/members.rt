//! Module procedures (12.5.2).

ghost use Rattle.std.specs.Prelude.{◌≡◌, ◌+◌, ℕ, List, map, option_map, length, vec_len, OnOk};
ghost use Rattle.std.specs.List.{flat_map};
ghost use Rattle.f3_scopes.specs.Scopes.{declared_in, result_of};
ghost use Rattle.f3_tree.specs.Declarations.{specification_view};
ghost use Rattle.f3_tree.specs.Tree.{procedure_view};
ghost use Rattle.f3_typed_parts.specs.Noted.{noted};
ghost use Rattle.f3_type_rules.specs.Scene.{Scene};
ghost use Rattle.f3_scopes.specs.Outlines.{Scope};
ghost use Rattle.f3_type_rules.specs.Members.{members_from};
ghost use Rattle.f3_type_rules.specs.Walks.{after, along, Known as Grown};
ghost use Rattle.f3_type_rules.specs.Declarations.{is_function, spot_of, member_rows, member_next};
ghost use Rattle.f3_declared.specs.Spots.{spot_in};
ghost use Rattle.f3_entities.specs.Growth.{Stands};
ghost use Rattle.f3_part_rules.specs.Members.{member_of, typed_count, AreFirsts, Fit};
ghost use Rattle.f3_part_rules.specs.Room.{HasRoom};
ghost use Rattle.f3_part_rules.specs.Inner.Procedures.{procedure_rows, procedure_next};

use crate::finalizers::Finalizers;
use crate::specifications::specifications;
use f3_declared::bools::either;
use f3_declared::specifiers::{header, locals};
use f3_declared::spots::{NameSet, Spot, name_set};
use f3_entities::growth::Growth;
use f3_finals::candidate::behind;
use f3_rules::breaks::Break;
use f3_tree::expression::Name;
use f3_tree::program::{Procedure, ProcedureKind};
use std::alloc::{AllocError, Global};

fn is_function(kind: ProcedureKind) -> bool
    ensures { result ≡ is_function kind }
{
    match kind {
        ProcedureKind::Function(_, _) => true,
        ProcedureKind::Subroutine => false,
    }
}

/// How many entities a header declares.
fn typed_count(kind: ProcedureKind) -> usize
    ensures { result ≡ typed_count kind }
{
    match kind {
        ProcedureKind::Function(Some(_), _) => 1,
        ProcedureKind::Function(None, _) => 0,
        ProcedureKind::Subroutine => 0,
    }
}

/// The name of a function's result.
fn result_symbol(kind: ProcedureKind, name: Name) -> Option<usize>
    ensures { result ≡ option_map (λ n. n.symbol) (result_of kind name) }
{
    match kind {
        ProcedureKind::Function(_, Some(outcome)) => Some(outcome.symbol),
        ProcedureKind::Function(_, None) => Some(name.symbol),
        ProcedureKind::Subroutine => None,
    }
}

/// Where the declarations of a procedure stand.
fn spot_of<'a>(
    unit: usize,
    scope: usize,
    dummies: &'a NameSet<'a>,
    procedure: &Procedure,
) -> Spot<'a>
    requires { dummies.now.names.now ≡ procedure.now.header.dummies.items }
    ensures { (s : Scene) → (e first : ℕ) → spot_in s result ≡ spot_of s unit (member_of e scope first (procedure_view procedure.now)) }
{
    let kind = procedure.header.kind;
    let is_pure = either(procedure.header.pure, is_function(kind));
    let result_name = result_symbol(kind, procedure.header.name);
    Spot {
        unit,
        scope,
        is_type: false,
        is_pure,
        dummies: Some(dummies),
        result_name,
        listed: None,
    }
}

/// Notes what is wrong with a procedure's header and its specification part, where this entity is the first in it.
fn procedure(
    alloc: Global,
    growth: &mut Growth<'_>,
    spot: &Spot<'_>,
    entity: usize,
    first: &mut Option<Break>,
    procedure: &Procedure,
) -> Result<(), AllocError>
    requires { HasRoom (record growth.old { next = entity + typed_count procedure.now.header.kind }) (length (flat_map declared_in (procedure_view procedure.now).part.specifications)) }
    ensures noted { OnOk result ((s : Scene) → (k : Grown) → Stands s growth.old k → first.new ≡ noted first.old (procedure_rows (spot_in s spot.now) k entity (procedure_view procedure.now))) }
    ensures stands { OnOk result ((s : Scene) → (k : Grown) → Stands s growth.old k → Stands s growth.new (procedure_next (spot_in s spot.now) k entity (procedure_view procedure.now))) }
    ensures values { OnOk result (vec_len growth.new.known.values ≡ vec_len growth.old.known.values) }
    ensures cells { OnOk result (vec_len growth.new.cells ≡ vec_len growth.old.cells) }
{
    let kind = procedure.header.kind;
    let name = procedure.header.name;
    header(
        &growth.known,
        growth.scenery,
        spot,
        growth.next,
        first,
        name,
        kind,
    );
    growth.next = entity + typed_count(kind);
    let nothing = Vec::new(alloc);
    let finalizers = Finalizers {
        first: 0,
        candidates: &nothing,
    };
    let list = procedure.part.specifications.as_slice();
    specifications(alloc, growth, spot, finalizers, first, list)?;
    locals(&growth.known, growth.scenery, spot, first, list);
    Ok(())
}

/// Notes what is wrong with a procedure of a unit, where this entity is the first in it, and makes known what it declares.
fn member(
    alloc: Global,
    growth: &mut Growth<'_>,
    unit: usize,
    scope: usize,
    entity: usize,
    first: &mut Option<Break>,
    given: &Procedure,
) -> Result<(), AllocError>
    requires { HasRoom (record growth.old { next = entity + typed_count given.now.header.kind }) (length (flat_map declared_in (procedure_view given.now).part.specifications)) }
    ensures noted { OnOk result ((s : Scene) → (k : Grown) → (e : ℕ) → Stands s growth.old k → first.new ≡ noted first.old (member_rows s unit k (member_of e scope entity (procedure_view given.now)))) }
    ensures stands { OnOk result ((s : Scene) → (k : Grown) → (e : ℕ) → Stands s growth.old k → Stands s growth.new (member_next s unit k (member_of e scope entity (procedure_view given.now)))) }
    ensures values { OnOk result (vec_len growth.new.known.values ≡ vec_len growth.old.known.values) }
    ensures cells { OnOk result (vec_len growth.new.cells ≡ vec_len growth.old.cells) }
{
    let dummies = name_set(alloc, &given.header.dummies)?;
    let spot = spot_of(unit, scope, &dummies, given);
    procedure(alloc, growth, &spot, entity, first, given)?;
    Ok(())
}

/// Notes what is wrong with the procedures of a unit, of which the first has this scope, and makes known what they declare. The
/// scopes' first entities are given, and the tables have room for all that the procedures declare (12.5.2).
///
/// # Errors
///
/// Where memory runs out.
pub fn members(
    alloc: Global,
    growth: &mut Growth<'_>,
    unit: usize,
    scope: usize,
    firsts: &[usize],
    first: &mut Option<Break>,
    list: &[Procedure],
) -> Result<(), AllocError>
    requires room { vec_len growth.old.cells ≡ vec_len growth.old.known.values }
    requires fit { Fit firsts.now (vec_len growth.old.known.values) scope (map procedure_view list.now) }
    ensures noted { OnOk result ((s : Scene) → (k : Grown) → (scopes : List Scope) → (e : ℕ) → Stands s growth.old k → AreFirsts scopes firsts.now → first.new ≡ noted first.old (along (member_rows s unit) (member_next s unit) k (members_from scopes e scope (map procedure_view list.now)))) }
    ensures stands { OnOk result ((s : Scene) → (k : Grown) → (scopes : List Scope) → (e : ℕ) → Stands s growth.old k → AreFirsts scopes firsts.now → Stands s growth.new (after (member_next s unit) k (members_from scopes e scope (map procedure_view list.now)))) }
    ensures values { OnOk result (vec_len growth.new.known.values ≡ vec_len growth.old.known.values) }
    ensures cells { OnOk result (vec_len growth.new.cells ≡ vec_len growth.old.cells) }
{
    let mut next = scope;
    for given in list {
        let entity = firsts[next];
        member(alloc, growth, unit, next, entity, first, given)?;
        next = behind(alloc, next, given)?;
    }
    Ok(())
}
