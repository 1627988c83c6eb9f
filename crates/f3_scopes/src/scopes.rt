//! The outlines of all scopes of a program.

ghost use Rattle.std.specs.Prelude.{◌≡◌, ◌++◌, ◌+◌, ◌∷◌, [], Option, Some, map, length, OnOk, IfOk};
ghost use Rattle.std.specs.List.{flat_map};
ghost use Rattle.f3_tree.specs.Declarations.{specification_view};
ghost use Rattle.f3_tree.specs.Tree.{header_view, procedure_view, unit_view, view};
ghost use Rattle.f3_scopes.specs.Outlines.{own_view, scope_view};
ghost use Rattle.f3_part_names.specs.Names.{named_specification};
ghost use Rattle.f3_scopes.specs.Scopes.{declared_in, procedure_kind, entity_kind, name_or, result_of, outcome_of, is_typed, typed_result, prefix_names, scope_of_procedure, procedure_own, unit_kind, scope_of_unit, procedure_scopes, procedures_from, own_scopes, unit_scopes, scopes_from, scopes_of};

use crate::constructs::add_block;
use crate::lists::{accesses, types};
use crate::outline::{Declared, EntityKind, Outline, ScopeKind};
use crate::walk::{declared, plain, usings};
use f3_part_names::listing::{access_places, given, protects};
use f3_part_names::naming::{specifications, specifier};
use f3_tree::declaration::Specification;
use f3_tree::expression::Name;
use f3_tree::program::{Procedure, ProcedureKind, Program, Unit, UnitKind};
use std::alloc::{AllocError, Global};

fn procedure_kind(kind: ProcedureKind) -> ScopeKind
    ensures { result ≡ procedure_kind kind }
{
    match kind {
        ProcedureKind::Subroutine => ScopeKind::Subroutine,
        ProcedureKind::Function(_, _) => ScopeKind::Function,
    }
}

fn entity_kind(kind: ProcedureKind) -> EntityKind
    ensures { result ≡ entity_kind kind }
{
    match kind {
        ProcedureKind::Subroutine => EntityKind::Subroutine,
        ProcedureKind::Function(_, _) => EntityKind::Function,
    }
}

fn result_of(kind: ProcedureKind, name: Name) -> Option<Name>
    ensures { result ≡ result_of kind name }
{
    match kind {
        ProcedureKind::Subroutine => None,
        ProcedureKind::Function(_, outcome) => Some(outcome.unwrap_or(name)),
    }
}

fn outcome_of(kind: ProcedureKind) -> Option<Name>
    ensures { result ≡ outcome_of kind }
{
    match kind {
        ProcedureKind::Subroutine => None,
        ProcedureKind::Function(_, outcome) => outcome,
    }
}

fn is_typed(kind: ProcedureKind) -> bool
    ensures { result ≡ is_typed kind }
{
    match kind {
        ProcedureKind::Function(Some(_), _) => true,
        ProcedureKind::Function(None, _) => false,
        ProcedureKind::Subroutine => false,
    }
}

/// What a prefix with a type declares.
fn typed_result(alloc: Global, kind: ProcedureKind, name: Name) -> Result<Vec<Declared>, AllocError>
    ensures { IfOk result (λ v. map own_view v.items ≡ typed_result kind name) }
{
    let mut found = Vec::new(alloc);
    if let ProcedureKind::Function(Some(_), outcome) = kind {
        found.push(plain(alloc, EntityKind::Variable, outcome.unwrap_or(name)))?;
    }
    Ok(found)
}

/// The names in a prefix.
fn prefix_names(alloc: Global, kind: ProcedureKind) -> Result<Vec<Name>, AllocError>
    ensures { IfOk result (λ v. v.items ≡ prefix_names kind) }
{
    let mut names = Vec::new(alloc);
    if let ProcedureKind::Function(Some(written), _) = kind {
        specifier(&mut names, written)?;
    }
    Ok(names)
}

fn procedure_declared(alloc: Global, procedure: &Procedure) -> Result<Vec<Declared>, AllocError>
    ensures { IfOk result (λ v. map own_view v.items ≡ typed_result (procedure_view procedure.now).header.kind (procedure_view procedure.now).header.name ++ flat_map declared_in (procedure_view procedure.now).part.specifications) }
{
    let mut found = typed_result(alloc, procedure.header.kind, procedure.header.name)?;
    declared(alloc, &mut found, &procedure.part.specifications)?;
    Ok(found)
}

fn procedure_references(alloc: Global, procedure: &Procedure) -> Result<Vec<Name>, AllocError>
    ensures { IfOk result (λ v. v.items ≡ prefix_names (procedure_view procedure.now).header.kind ++ flat_map named_specification (procedure_view procedure.now).part.specifications) }
{
    let mut names = prefix_names(alloc, procedure.header.kind)?;
    specifications(&mut names, &procedure.part.specifications)?;
    Ok(names)
}

/// The outline of a procedure of the module of this number.
fn procedure_scope(alloc: Global, host: usize, procedure: &Procedure) -> Result<Outline, AllocError>
    ensures { IfOk result (λ o. scope_view o ≡ scope_of_procedure host (procedure_view procedure.now)) }
{
    let mut dummies = Vec::new(alloc);
    dummies.extend_from_slice(&procedure.header.dummies)?;
    let part = &procedure.part;
    Ok(Outline {
        kind: procedure_kind(procedure.header.kind),
        name: procedure.header.name,
        host: Some(host),
        uses: usings(alloc, &part.uses)?,
        declared: procedure_declared(alloc, procedure)?,
        dummies,
        outcome: outcome_of(procedure.header.kind),
        result: result_of(procedure.header.kind, procedure.header.name),
        is_typed: is_typed(procedure.header.kind),
        accesses: accesses(alloc, &part.specifications)?,
        given: given(alloc, &part.specifications)?,
        access_attributes: access_places(alloc, &part.specifications)?,
        protects: protects(alloc, &part.specifications)?,
        types: types(alloc, &part.specifications)?,
        references: procedure_references(alloc, procedure)?,
    })
}

fn procedure_names(
    alloc: Global,
    found: &mut Vec<Declared>,
    list: &[Procedure],
) -> Result<(), AllocError>
    ensures { OnOk result (map own_view found.new.items ≡ map own_view found.old.items ++ map procedure_own (map procedure_view list.now)) }
{
    for procedure in list {
        found.push(plain(
            alloc,
            entity_kind(procedure.header.kind),
            procedure.header.name,
        ))?;
    }
    Ok(())
}

fn unit_declared(alloc: Global, unit: &Unit) -> Result<Vec<Declared>, AllocError>
    ensures { IfOk result (λ v. map own_view v.items ≡ flat_map declared_in (unit_view unit.now).part.specifications ++ map procedure_own (unit_view unit.now).procedures) }
{
    let mut found = Vec::new(alloc);
    declared(alloc, &mut found, &unit.part.specifications)?;
    procedure_names(alloc, &mut found, &unit.procedures)?;
    Ok(found)
}

fn unit_references(alloc: Global, list: &[Specification]) -> Result<Vec<Name>, AllocError>
    ensures { IfOk result (λ v. v.items ≡ flat_map named_specification (map specification_view list.now)) }
{
    let mut names = Vec::new(alloc);
    specifications(&mut names, list)?;
    Ok(names)
}

fn unit_scope(alloc: Global, unit: &Unit) -> Result<Outline, AllocError>
    ensures { IfOk result (λ o. scope_view o ≡ scope_of_unit (unit_view unit.now)) }
{
    let part = &unit.part;
    Ok(Outline {
        kind: match unit.kind {
            UnitKind::Module => ScopeKind::Module,
            UnitKind::Program => ScopeKind::Program,
        },
        name: unit.name,
        host: None,
        uses: usings(alloc, &part.uses)?,
        declared: unit_declared(alloc, unit)?,
        dummies: Vec::new(alloc),
        outcome: None,
        result: None,
        is_typed: false,
        accesses: accesses(alloc, &part.specifications)?,
        given: given(alloc, &part.specifications)?,
        access_attributes: access_places(alloc, &part.specifications)?,
        protects: protects(alloc, &part.specifications)?,
        types: types(alloc, &part.specifications)?,
        references: unit_references(alloc, &part.specifications)?,
    })
}

/// Adds a procedure of the module of this number, and behind it the constructs of its body.
fn add_procedure(
    alloc: Global,
    found: &mut Vec<Outline>,
    host: usize,
    procedure: &Procedure,
) -> Result<(), AllocError>
    ensures { OnOk result (map scope_view found.new.items ≡ map scope_view found.old.items ++ procedure_scopes host (length found.old.items) (procedure_view procedure.now)) }
{
    let number = found.len();
    let scope = procedure_scope(alloc, host, procedure)?;
    found.push(scope)?;
    add_block(alloc, found, number, procedure.header.name, &procedure.body)
}

fn add_procedures(
    alloc: Global,
    found: &mut Vec<Outline>,
    host: usize,
    list: &[Procedure],
) -> Result<(), AllocError>
    ensures { OnOk result (map scope_view found.new.items ≡ map scope_view found.old.items ++ procedures_from host (length found.old.items) (map procedure_view list.now)) }
{
    for procedure in list {
        add_procedure(alloc, found, host, procedure)?;
    }
    Ok(())
}

/// Adds a unit without its procedures, and behind it the constructs of its body.
fn add_own_scopes(alloc: Global, found: &mut Vec<Outline>, unit: &Unit) -> Result<(), AllocError>
    ensures { OnOk result (map scope_view found.new.items ≡ map scope_view found.old.items ++ own_scopes (length found.old.items) (unit_view unit.now)) }
{
    let number = found.len();
    let scope = unit_scope(alloc, unit)?;
    found.push(scope)?;
    add_block(alloc, found, number, unit.name, &unit.body)
}

/// Adds a unit with its constructs, and behind them its procedures with theirs.
fn add_unit(alloc: Global, found: &mut Vec<Outline>, unit: &Unit) -> Result<(), AllocError>
    ensures { OnOk result (map scope_view found.new.items ≡ map scope_view found.old.items ++ unit_scopes (length found.old.items) (unit_view unit.now)) }
{
    let number = found.len();
    add_own_scopes(alloc, found, unit)?;
    add_procedures(alloc, found, number, &unit.procedures)
}

/// The outlines of the scopes of a program in order of place: each unit, behind it its procedures (16.2), and behind each
/// of these the constructs of its body (16.3).
pub fn outlines(alloc: Global, program: &Program) -> Result<Vec<Outline>, AllocError>
    ensures { IfOk result (λ v. map scope_view v.items ≡ scopes_of (view program.now)) }
{
    let mut found = Vec::new(alloc);
    for unit in &program.units {
        add_unit(alloc, &mut found, unit)?;
    }
    Ok(found)
}
