//! What the entities of a program are, in order: those of each scope, scope by scope.

ghost use Rattle.std.specs.Prelude.{◌≡◌, ◌++◌, ◌∷◌, [], ◌+◌, ◌^◌, ◌<◌, nat_eq, nat_lt, Some, length, map, replicate, IfOk, OnOk};
ghost use Rattle.std.specs.List.{flat_map, list_any};
ghost use Rattle.f3_tree.specs.Declarations.{declaration_view, specification_view};
ghost use Rattle.indexmap.specs.IndexMap.{get};
ghost use Rattle.f3_tree.specs.Tree.{header_view, procedure_view, unit_view, view};
ghost use Rattle.f3_scopes.specs.Scopes.{declared_in, scopes_of};
ghost use Rattle.f3_access.specs.Access.{entities_of};
ghost use Rattle.f3_kinds.specs.Things.{variable};
ghost use Rattle.f3_type_rules.specs.Associates.{constructs_of_block};
ghost use Rattle.f3_type_rules.specs.Names.{undeclared};
ghost use Rattle.f3_type_rules.specs.Natures.{object_nature, declared_nature, typed_natures};
ghost use Rattle.f3_typed_parts.specs.Known.{nature_of};
ghost use Rattle.f3_natures.specs.Known.{names_view};
ghost use Rattle.f3_natures.specs.Natures.{kept, natures_of, HasDistinctParts};
ghost use Rattle.f3_natures.specs.Procedures.{final_type, is_for, procedure_by};
ghost use Rattle.f3_natures.specs.Walk.{final_at, is_final, made_one, made_all, count_of, end_of, along, final_made, procedure_made, inner_made, all_finals, all_made, all_inner, own_count, unit_start, unit_end, unit_made, units_made, units_end};

use crate::constructs::constructs;
use crate::names::Names;
use crate::objects::{Described, common_of, describe, typed_object, undeclared};
use crate::parts::components;
use crate::procedures::{final_type, locals, procedure_thing};
use f3_access::lookup;
use f3_kinds::things::{Thing, TypeTable};
use f3_kinds::types::Object;
use f3_lookups::lookup::Lookup;
use f3_scopes::outline::EntityKind;
use f3_tree::declaration::{Declaration, Specification};
use f3_tree::expression::Name;
use f3_tree::program::{Header, Procedure, ProcedureKind, Program, Unit};
use indexmap::IndexMap;
use std::alloc::{AllocError, Global};

/// A declared name: of a constant or of a variable.
fn object_thing(kind: EntityKind, object: Object) -> Thing
    ensures { nature_of result ≡ object_nature kind object }
{
    match kind {
        EntityKind::Constant => Thing::Constant(object),
        EntityKind::Variable => Thing::Variable(object),
        EntityKind::DerivedType => Thing::Variable(object),
        EntityKind::Subroutine => Thing::Variable(object),
        EntityKind::Function => Thing::Variable(object),
    }
}

fn add_declared(
    names: &Names<'_>,
    scope: usize,
    things: &mut Vec<Thing>,
    declaration: &Declaration,
) -> Result<(), AllocError>
    ensures { OnOk result (map nature_of things.new.items ≡ map nature_of things.old.items ++ map (declared_nature (names_view names.now) scope (declaration_view declaration.now)) (declaration_view declaration.now).entities) }
{
    let common = common_of(names, scope, declaration);
    for entity in &declaration.entities {
        things.push(object_thing(common.kind, describe(common, entity).object))?;
    }
    Ok(())
}

/// Whether a procedure may be final for this type, by the type that it may be final for.
fn is_for(entity: usize, of: Option<usize>) -> bool
    ensures { result ≡ is_for entity of }
{
    match of {
        Some(of) => of == entity,
        None => false,
    }
}

/// Whether an entity is a procedure of the module that may be final for a type. The list has for each procedure the
/// type that it may be final for; `first` is the entity of the first.
fn final_at(first: usize, finals: &[Option<usize>], entity: usize, found: usize) -> bool
    ensures { result ≡ final_at first finals.now entity found }
{
    if found < first {
        return false;
    }
    match finals.get(found - first) {
        Some(of) => is_for(entity, *of),
        None => false,
    }
}

/// Whether a name in FINAL is that of a procedure of the module that may be final for the type.
fn is_final(
    names: &Names<'_>,
    scope: usize,
    first: usize,
    finals: &[Option<usize>],
    entity: usize,
    name: Name,
) -> bool
    ensures { result ≡ is_final (names_view names.now) scope first finals.now entity name }
{
    match lookup(names.tables, scope, name.symbol) {
        Lookup::One(found) => final_at(first, finals, entity, found),
        Lookup::Nothing => false,
        Lookup::Several => false,
    }
}

fn has_final(
    names: &Names<'_>,
    scope: usize,
    first: usize,
    finals: &[Option<usize>],
    entity: usize,
    list: &[Name],
) -> bool
    ensures { result ≡ list_any (is_final (names_view names.now) scope first finals.now entity) list.now }
{
    for name in list {
        if is_final(names, scope, first, finals, entity, *name) {
            return true;
        }
    }
    false
}

fn add_specification(
    alloc: Global,
    names: &Names<'_>,
    scope: usize,
    first: usize,
    finals: &[Option<usize>],
    things: &mut Vec<Thing>,
    specification: &Specification,
) -> Result<(), AllocError>
    ensures { OnOk result (map nature_of things.new.items ≡ map nature_of things.old.items ++ made_one (names_view names.now) scope (is_final (names_view names.now) scope first finals.now) (length things.old.items) (specification_view specification.now)) }
{
    match specification {
        Specification::Declaration(declaration) => add_declared(names, scope, things, declaration),
        Specification::Type(definition) => {
            let entity = things.len();
            let table = TypeTable {
                home: scope,
                components: components(alloc, names, scope, definition)?,
                is_finalizable: has_final(names, scope, first, finals, entity, &definition.finals),
            };
            things.push(Thing::Type(table))?;
            Ok(())
        }
        Specification::Access(_) => Ok(()),
        Specification::Protected(_, _) => Ok(()),
        Specification::Save(_) => Ok(()),
    }
}

/// The entities that a specification part declares.
fn add_specifications(
    alloc: Global,
    names: &Names<'_>,
    scope: usize,
    first: usize,
    finals: &[Option<usize>],
    things: &mut Vec<Thing>,
    list: &[Specification],
) -> Result<(), AllocError>
    ensures { OnOk result (map nature_of things.new.items ≡ map nature_of things.old.items ++ made_all (names_view names.now) scope (is_final (names_view names.now) scope first finals.now) (length things.old.items) (map specification_view list.now)) }
{
    for specification in list {
        add_specification(alloc, names, scope, first, finals, things, specification)?;
    }
    Ok(())
}

fn add_variables(things: &mut Vec<Thing>, count: usize) -> Result<(), AllocError>
    ensures { OnOk result (map nature_of things.new.items ≡ map nature_of things.old.items ++ replicate count (variable undeclared)) }
{
    for _name in 0..count {
        things.push(Thing::Variable(undeclared()))?;
    }
    Ok(())
}

/// The associate names of constructs, each by the number of its names.
fn add_associates(things: &mut Vec<Thing>, constructs: &[usize]) -> Result<(), AllocError>
    ensures { OnOk result (map nature_of things.new.items ≡ map nature_of things.old.items ++ flat_map (λ n. replicate n (variable undeclared)) constructs.now) }
{
    for count in constructs {
        add_variables(things, *count)?;
    }
    Ok(())
}

/// The result that a prefix with a type declares.
fn add_typed(
    names: &Names<'_>,
    scope: usize,
    things: &mut Vec<Thing>,
    kind: ProcedureKind,
) -> Result<(), AllocError>
    ensures { OnOk result (map nature_of things.new.items ≡ map nature_of things.old.items ++ typed_natures (names_view names.now) scope kind) }
{
    match kind {
        ProcedureKind::Function(Some(specifier), _) => {
            things.push(Thing::Variable(typed_object(names, scope, specifier)))?;
            Ok(())
        }
        ProcedureKind::Function(None, _) => Ok(()),
        ProcedureKind::Subroutine => Ok(()),
    }
}

/// What the header of a procedure with these locals tells: the type that it may be final for, and what it is.
fn add_header(
    alloc: Global,
    names: &Names<'_>,
    scope: usize,
    finals: &mut Vec<Option<usize>>,
    made: &mut Vec<Thing>,
    locals: &IndexMap<usize, Described>,
    header: &Header,
) -> Result<(), AllocError>
    ensures finals { OnOk result (finals.new.items ≡ finals.old.items ++ final_type (get nat_eq locals.now) header.now.kind header.now.dummies.items ∷ []) }
    ensures made { OnOk result (map nature_of made.new.items ≡ map nature_of made.old.items ++ procedure_by (names_view names.now) scope (get nat_eq locals.now) (header_view header.now) ∷ []) }
{
    finals.push(final_type(locals, header))?;
    let thing = procedure_thing(alloc, names, scope, locals, header)?;
    made.push(thing)?;
    Ok(())
}

/// What is found of a procedure by its header: the type that it may be final for, and what it is.
fn add_procedure(
    alloc: Global,
    names: &Names<'_>,
    scope: usize,
    finals: &mut Vec<Option<usize>>,
    made: &mut Vec<Thing>,
    procedure: &Procedure,
) -> Result<(), AllocError>
    ensures finals { OnOk result (finals.new.items ≡ finals.old.items ++ final_made (names_view names.now) scope (procedure_view procedure.now)) }
    ensures made { OnOk result (map nature_of made.new.items ≡ map nature_of made.old.items ++ procedure_made (names_view names.now) scope (procedure_view procedure.now)) }
{
    let locals = locals(alloc, names, scope, &procedure.part.specifications)?;
    let added = add_header(
        alloc,
        names,
        scope,
        finals,
        made,
        &locals,
        &procedure.header,
    );
    drop(locals);
    added
}

/// What a procedure declares. The answer is the number of the scope behind its own and those of its constructs.
fn add_inner(
    alloc: Global,
    names: &Names<'_>,
    scope: usize,
    inner: &mut Vec<Thing>,
    procedure: &Procedure,
) -> Result<usize, AllocError>
    requires { scope + 1 + count_of (procedure_view procedure.now).body < 2 ^ 64 }
    ensures next { IfOk result (λ n. n ≡ scope + 1 + count_of (procedure_view procedure.now).body) }
    ensures inner { OnOk result (map nature_of inner.new.items ≡ map nature_of inner.old.items ++ inner_made (names_view names.now) scope (procedure_view procedure.now)) }
{
    add_typed(names, scope, inner, procedure.header.kind)?;
    add_specifications(
        alloc,
        names,
        scope,
        0,
        &[],
        inner,
        &procedure.part.specifications,
    )?;
    let constructs = constructs(alloc, &procedure.body)?;
    add_associates(inner, &constructs)?;
    Ok(scope + 1 + constructs.len())
}

/// The procedures of a module, of which the first has this scope. The answer is the number of the scope behind them.
fn add_procedures(
    alloc: Global,
    names: &Names<'_>,
    scope: usize,
    finals: &mut Vec<Option<usize>>,
    made: &mut Vec<Thing>,
    inner: &mut Vec<Thing>,
    list: &[Procedure],
) -> Result<usize, AllocError>
    requires { end_of scope (map procedure_view list.now) < 2 ^ 64 }
    ensures next { IfOk result (λ n. n ≡ end_of scope (map procedure_view list.now)) }
    ensures finals { OnOk result (finals.new.items ≡ finals.old.items ++ all_finals (names_view names.now) scope (map procedure_view list.now)) }
    ensures made { OnOk result (map nature_of made.new.items ≡ map nature_of made.old.items ++ all_made (names_view names.now) scope (map procedure_view list.now)) }
    ensures inner { OnOk result (map nature_of inner.new.items ≡ map nature_of inner.old.items ++ all_inner (names_view names.now) scope (map procedure_view list.now)) }
{
    let mut next = scope;
    for procedure in list {
        add_procedure(alloc, names, next, finals, made, procedure)?;
        next = add_inner(alloc, names, next, inner, procedure)?;
    }
    Ok(next)
}

/// The number of entities that a specification declares.
fn declared_by(specification: &Specification) -> usize
    ensures { result ≡ length (declared_in (specification_view specification.now)) }
{
    match specification {
        Specification::Declaration(declaration) => declaration.entities.len(),
        Specification::Type(_) => 1,
        Specification::Access(_) => 0,
        Specification::Protected(_, _) => 0,
        Specification::Save(_) => 0,
    }
}

/// The number behind the entities that a specification part declares, of which the first has this number.
fn behind_declared(first: usize, list: &[Specification]) -> usize
    requires { first + length (flat_map declared_in (map specification_view list.now)) < 2 ^ 64 }
    ensures { result ≡ first + length (flat_map declared_in (map specification_view list.now)) }
{
    let mut next = first;
    for specification in list {
        next += declared_by(specification);
    }
    next
}

/// Adds what a unit declares, what its procedures are, and what these declare. What is found of the procedures stands in
/// lists that are empty before. The answer is the number of the scope behind all of these.
fn add_all(
    alloc: Global,
    names: &Names<'_>,
    scope: usize,
    constructs: &[usize],
    finals: &mut Vec<Option<usize>>,
    made: &mut Vec<Thing>,
    inner: &mut Vec<Thing>,
    things: &mut Vec<Thing>,
    unit: &Unit,
) -> Result<usize, AllocError>
    requires scopes { unit_end scope (unit_view unit.now) < 2 ^ 64 }
    requires entities { length things.old.items + own_count (unit_view unit.now) < 2 ^ 64 }
    requires constructs { constructs.now ≡ map length (constructs_of_block (unit_view unit.now).body) }
    requires finals { finals.old.items ≡ [] }
    requires made { made.old.items ≡ [] }
    requires inner { inner.old.items ≡ [] }
    ensures next { IfOk result (λ n. n ≡ unit_end scope (unit_view unit.now)) }
    ensures things { OnOk result (map nature_of things.new.items ≡ map nature_of things.old.items ++ unit_made (names_view names.now) (length things.old.items) scope (unit_view unit.now)) }
{
    let start = scope + 1 + constructs.len();
    let next = add_procedures(alloc, names, start, finals, made, inner, &unit.procedures)?;
    let first = behind_declared(things.len(), &unit.part.specifications);
    add_specifications(
        alloc,
        names,
        scope,
        first,
        finals,
        things,
        &unit.part.specifications,
    )?;
    things.append(made)?;
    add_associates(things, constructs)?;
    things.append(inner)?;
    Ok(next)
}

/// A unit: what it declares, what its procedures are, and what these declare. The answer is the number of the scope
/// behind all of these.
fn add_unit(
    alloc: Global,
    names: &Names<'_>,
    scope: usize,
    things: &mut Vec<Thing>,
    unit: &Unit,
) -> Result<usize, AllocError>
    requires scopes { unit_end scope (unit_view unit.now) < 2 ^ 64 }
    requires entities { length things.old.items + own_count (unit_view unit.now) < 2 ^ 64 }
    ensures next { IfOk result (λ n. n ≡ unit_end scope (unit_view unit.now)) }
    ensures things { OnOk result (map nature_of things.new.items ≡ map nature_of things.old.items ++ unit_made (names_view names.now) (length things.old.items) scope (unit_view unit.now)) }
{
    let constructs = constructs(alloc, &unit.body)?;
    let mut finals = Vec::new(alloc);
    let mut made = Vec::new(alloc);
    let mut inner = Vec::new(alloc);
    let added = add_all(
        alloc,
        names,
        scope,
        &constructs,
        &mut finals,
        &mut made,
        &mut inner,
        things,
        unit,
    );
    drop(inner);
    drop(made);
    drop(finals);
    drop(constructs);
    added
}

/// The units of a program.
fn units(alloc: Global, names: &Names<'_>, list: &[Unit]) -> Result<Vec<Thing>, AllocError>
    requires scopes { units_end 0 (map unit_view list.now) < 2 ^ 64 }
    requires entities { length (units_made (names_view names.now) 0 0 (map unit_view list.now)) < 2 ^ 64 }
    ensures { IfOk result (λ v. map nature_of v.items ≡ units_made (names_view names.now) 0 0 (map unit_view list.now)) }
{
    let mut things = Vec::new(alloc);
    let mut scope = 0;
    for unit in list {
        match add_unit(alloc, names, scope, &mut things, unit) {
            Ok(next) => scope = next,
            Err(error) => {
                drop(things);
                return Err(error);
            }
        }
    }
    Ok(things)
}

/// What each entity of a program is, by its number; of two components of a type, or two dummies of a procedure, that have
/// one name the first. Of a type it is said whether it has a final subroutine of its own (4.5.5).
#[tactic(auto, using(crate::proofs::Standing::units_ends, crate::proofs::Standing::units_long, crate::proofs::Standing::program_same))]
pub fn natures(
    alloc: Global,
    names: &Names<'_>,
    program: &Program,
) -> Result<Vec<Thing>, AllocError>
    requires scopes { length (scopes_of (view program.now)) < 2 ^ 64 }
    requires entities { length (entities_of (scopes_of (view program.now))) < 2 ^ 64 }
    ensures all { IfOk result (λ v. map nature_of v.items ≡ map kept (natures_of (names_view names.now) (view program.now))) }
    ensures distinct { IfOk result (λ v. HasDistinctParts (view program.now) → map nature_of v.items ≡ natures_of (names_view names.now) (view program.now)) }
{
    let things = units(alloc, names, &program.units)?;
    Ok(things)
}
