//! The variables that live for the whole run (5.1, 5.1.2.12, 16.5.6).

ghost use Rattle.std.specs.Prelude.{◌≡◌, ◌++◌, ◌∷◌, ◌+◌, ◌-◌, ◌^◌, ◌<◌, [], ℕ, get_or, map, filter, length, IfOk, OnOk};
ghost use Rattle.std.specs.List.{flat_map};
ghost use Rattle.f3_scopes.specs.Scopes.{declared_in, scopes_of};
ghost use Rattle.f3_tree.specs.Declarations.{declaration_view, entity_view, specification_view};
ghost use Rattle.f3_tree.specs.Tree.{procedure_view, unit_view, view};
ghost use Rattle.f3_natures.specs.Walk.{along, count_of, end_of, unit_end, unit_start};
ghost use Rattle.f3_names.specs.Tables.{AreNames};
ghost use Rattle.f3_type_rules.specs.Members.{units_from};
ghost use Rattle.f3_declared.specs.Declarations.{IsRead, tree_of};
ghost use Rattle.f3_unit_rules.specs.Members.{Fit, typed_count};
ghost use Rattle.f3_unit_rules.specs.Units.{UnitFits};
ghost use Rattle.f3_elaboration.specs.Declarations as elaborated;
ghost use Rattle.f3_elaboration.specs.DeclaredViews.{static_view};
ghost use Rattle.f3_elaboration.specs.Numbers.{Inner, declared_from, is_static_in, names_in, unit_statics};
ghost use Rattle.f3_declaration_nodes.specs.Stands.{Stands};
ghost use Rattle.f3_declaration_nodes.specs.Variables.{static_by, variable_at};
ghost use Rattle.f3_variable_nodes.specs.Inner.Walk.{AllFit, part_statics, procedure_statics, statics_from, unit_statics_by};

use crate::places::{declared_by, is_static_in, typed_count};
use f3_declaration_nodes::variables::make_static;
use f3_declaration_nodes::whole::Whole;
use f3_declared::attributes::{Reading, read};
use f3_finals::candidate::behind;
use f3_names::table::Names;
use f3_natures::constructs::constructs;
use f3_program::program::Static;
use f3_tree::declaration::{Declaration, Entity, Specification};
use f3_tree::program::{Procedure, Program, Unit, UnitKind};
use f3_unit_rules::firsts::firsts;
use std::alloc::{AllocError, Global};

/// Where a specification part stands: in a unit of this kind, or in a procedure, where variables lie as in a program.
#[derive(Clone, Copy)]
struct Home {
    kind: UnitKind,
    unit: usize,
    scope: usize,
}

/// Adds a declared name where it is one.
fn add_name(
    alloc: Global,
    whole: Whole<'_>,
    home: Home,
    number: usize,
    found: &mut Vec<Static>,
    reading: &Reading<'_>,
    entity: &Entity,
) -> Result<(), AllocError>
    requires { IsRead reading.now }
    ensures { OnOk result (map static_view found.new.items ≡ map static_view found.old.items ++ map (static_by whole.entry) (filter (is_static_in home.kind) (variable_at number home.unit home.scope (tree_of reading.now, entity_view entity.now) ∷ []))) }
{
    if is_static_in(home.kind, reading, entity) {
        let made = make_static(alloc, whole, number, home.unit, home.scope, reading, entity)?;
        found.push(made)?;
    }
    Ok(())
}

fn add_declaration(
    alloc: Global,
    whole: Whole<'_>,
    home: Home,
    first: usize,
    found: &mut Vec<Static>,
    declaration: &Declaration,
) -> Result<(), AllocError>
    requires { first + length declaration.now.entities.items < 2 ^ 64 }
    ensures { OnOk result (map static_view found.new.items ≡ map static_view found.old.items ++ map (static_by whole.entry) (filter (is_static_in home.kind) (declared_from home.unit home.scope first (declaration_view declaration.now) (declaration_view declaration.now).entities))) }
{
    let reading = read(declaration);
    let mut number = first;
    for entity in &declaration.entities {
        add_name(alloc, whole, home, number, found, &reading, entity)?;
        number += 1;
    }
    Ok(())
}

fn add_specification(
    alloc: Global,
    whole: Whole<'_>,
    home: Home,
    first: usize,
    found: &mut Vec<Static>,
    specification: &Specification,
) -> Result<(), AllocError>
    requires { first + length (declared_in (specification_view specification.now)) < 2 ^ 64 }
    ensures { OnOk result (map static_view found.new.items ≡ map static_view found.old.items ++ map (static_by whole.entry) (filter (is_static_in home.kind) (names_in home.unit home.scope first (specification_view specification.now)))) }
{
    match specification {
        Specification::Declaration(declaration) => {
            add_declaration(alloc, whole, home, first, found, declaration)
        }
        Specification::Access(_) => Ok(()),
        Specification::Protected(_, _) => Ok(()),
        Specification::Save(_) => Ok(()),
        Specification::Type(_) => Ok(()),
    }
}

/// Those of a specification part, of which this entity is the first.
fn add_part(
    alloc: Global,
    whole: Whole<'_>,
    home: Home,
    first: usize,
    found: &mut Vec<Static>,
    list: &[Specification],
) -> Result<(), AllocError>
    requires { first + length (flat_map declared_in (map specification_view list.now)) < 2 ^ 64 }
    ensures { OnOk result (map static_view found.new.items ≡ map static_view found.old.items ++ map (static_by whole.entry) (part_statics home.kind home.unit home.scope first (map specification_view list.now))) }
{
    let mut number = first;
    for specification in list {
        add_specification(alloc, whole, home, number, found, specification)?;
        number += declared_by(specification);
    }
    Ok(())
}

/// Those of a procedure. The answer is the number of the scope behind its own and those of its constructs.
fn add_procedure(
    alloc: Global,
    whole: Whole<'_>,
    firsts: &[usize],
    unit: usize,
    scope: usize,
    found: &mut Vec<Static>,
    procedure: &Procedure,
) -> Result<usize, AllocError>
    requires known { scope < length firsts.now }
    requires room { get_or firsts.now scope 0 + typed_count procedure.now.header.kind + length (flat_map declared_in (procedure_view procedure.now).part.specifications) < 2 ^ 64 }
    requires scopes { scope + 1 + count_of (procedure_view procedure.now).body < 2 ^ 64 }
    ensures next { IfOk result (λ n. n ≡ scope + 1 + count_of (procedure_view procedure.now).body) }
    ensures found { OnOk result (map static_view found.new.items ≡ map static_view found.old.items ++ map (static_by whole.entry) (procedure_statics firsts.now unit scope (procedure_view procedure.now))) }
{
    let home = Home {
        kind: UnitKind::Program,
        unit,
        scope,
    };
    let first = firsts[scope] + typed_count(procedure.header.kind);
    let list = procedure.part.specifications.as_slice();
    add_part(alloc, whole, home, first, found, list)?;
    let next = behind(alloc, scope, procedure)?;
    Ok(next)
}

/// Those of the procedures of a unit, of which the first has this scope. The answer is the number of the scope behind them.
fn add_procedures(
    alloc: Global,
    whole: Whole<'_>,
    firsts: &[usize],
    unit: usize,
    scope: usize,
    found: &mut Vec<Static>,
    list: &[Procedure],
) -> Result<usize, AllocError>
    requires { Fit firsts.now (2 ^ 64 - 1) scope (map procedure_view list.now) }
    ensures next { IfOk result (λ n. n ≡ end_of scope (map procedure_view list.now)) }
    ensures found { OnOk result (map static_view found.new.items ≡ map static_view found.old.items ++ map (static_by whole.entry) (along (procedure_statics firsts.now unit) scope (map procedure_view list.now))) }
{
    let mut next = scope;
    for procedure in list {
        next = add_procedure(alloc, whole, firsts, unit, next, found, procedure)?;
    }
    Ok(next)
}

/// The scope of the first procedure of a unit: it stands behind that of the unit and those of its constructs.
fn members_scope(alloc: Global, scope: usize, unit: &Unit) -> Result<usize, AllocError>
    requires { unit_start scope (unit_view unit.now) < 2 ^ 64 }
    ensures { IfOk result (λ n. n ≡ unit_start scope (unit_view unit.now)) }
{
    let constructs = constructs(alloc, &unit.body)?;
    Ok(scope + 1 + constructs.len())
}

/// Those of a unit and its procedures. The answer is the number of the scope behind all of theirs.
fn add_unit(
    alloc: Global,
    whole: Whole<'_>,
    firsts: &[usize],
    scope: usize,
    found: &mut Vec<Static>,
    unit: &Unit,
) -> Result<usize, AllocError>
    requires { UnitFits firsts.now (2 ^ 64 - 1) scope (unit_view unit.now) }
    ensures next { IfOk result (λ n. n ≡ unit_end scope (unit_view unit.now)) }
    ensures found { OnOk result (map static_view found.new.items ≡ map static_view found.old.items ++ map (static_by whole.entry) (unit_statics_by firsts.now scope (unit_view unit.now))) }
{
    let home = Home {
        kind: unit.kind,
        unit: scope,
        scope,
    };
    let list = unit.part.specifications.as_slice();
    add_part(alloc, whole, home, firsts[scope], found, list)?;
    let start = members_scope(alloc, scope, unit)?;
    let procedures = unit.procedures.as_slice();
    let next = add_procedures(alloc, whole, firsts, scope, start, found, procedures)?;
    Ok(next)
}

fn add_units(
    alloc: Global,
    whole: Whole<'_>,
    firsts: &[usize],
    found: &mut Vec<Static>,
    list: &[Unit],
) -> Result<(), AllocError>
    requires { AllFit firsts.now (2 ^ 64 - 1) 0 (map unit_view list.now) }
    ensures { OnOk result (map static_view found.new.items ≡ map static_view found.old.items ++ map (static_by whole.entry) (statics_from firsts.now 0 (map unit_view list.now))) }
{
    let mut scope = 0;
    for unit in list {
        scope = add_unit(alloc, whole, firsts, scope, found, unit)?;
    }
    Ok(())
}

/// The variables of a program that live for the whole run, in order: those of modules, and those of the program and of procedures
/// that are saved.
///
/// # Errors
///
/// Where memory runs out.
pub fn statics(
    alloc: Global,
    whole: Whole<'_>,
    names: &Names,
    program: &Program,
) -> Result<Vec<Static>, AllocError>
    requires { AreNames (view program.now) names.now }
    ensures { IfOk result (λ v. (w : elaborated.Whole) (inner : Inner) → Stands whole.entry w inner → map static_view v.items ≡ map (elaborated.static w) (flat_map unit_statics (units_from (scopes_of (view program.now)) 0 (view program.now).units))) }
{
    let firsts = firsts(alloc, names.outlines())?;
    let mut found = Vec::new(alloc);
    add_units(alloc, whole, &firsts, &mut found, &program.units)?;
    Ok(found)
}
