//! What procedures are: their dummies, their results, and the types that they may be final for (4.5.5, 12.3).

ghost use Rattle.std.specs.Prelude.{◌≡◌, nat_eq, map, Some, IfOk, OnOk};
ghost use Rattle.indexmap.specs.IndexMap.{get};
ghost use Rattle.f3_tree.specs.Declarations.{declaration_view, entity_view, specification_view};
ghost use Rattle.f3_tree.specs.Tree.{header_view};
ghost use Rattle.f3_type_rules.specs.Finals.{is_out};
ghost use Rattle.f3_typed_parts.specs.Known.{nature_of};
ghost use Rattle.f3_natures.specs.Known.{names_view};
ghost use Rattle.f3_natures.specs.Entries.{firsts, firsts_after};
ghost use Rattle.f3_natures.specs.Procedures.{described_entry, described_in, described_all, dummy_by, dummy_entry, object_by, result_by, procedure_by, final_for, final_type};

use crate::entries::keep_first;
use crate::names::Names;
use crate::objects::{Described, common_of, describe, typed_object, undeclared};
use f3_kinds::things::{Dummy, Signature, Thing};
use f3_kinds::types::{DataType, Object};
use f3_tree::declaration::{Declaration, Intent, Specification};
use f3_tree::expression::Name;
use f3_tree::program::{Header, ProcedureKind};
use indexmap::IndexMap;
use std::alloc::{AllocError, Global};

fn add_declared(
    names: &Names<'_>,
    scope: usize,
    found: &mut IndexMap<usize, Described>,
    declaration: &Declaration,
) -> Result<(), AllocError>
    ensures { OnOk result (found.new.entries ≡ firsts_after found.old.entries (map (described_entry (names_view names.now) scope (declaration_view declaration.now)) (declaration_view declaration.now).entities)) }
{
    let common = common_of(names, scope, declaration);
    for entity in &declaration.entities {
        keep_first(found, entity.name.symbol, describe(common, entity))?;
    }
    Ok(())
}

fn add_specification(
    names: &Names<'_>,
    scope: usize,
    found: &mut IndexMap<usize, Described>,
    specification: &Specification,
) -> Result<(), AllocError>
    ensures { OnOk result (found.new.entries ≡ firsts_after found.old.entries (described_in (names_view names.now) scope (specification_view specification.now))) }
{
    match specification {
        Specification::Declaration(declaration) => add_declared(names, scope, found, declaration),
        Specification::Access(_) => Ok(()),
        Specification::Protected(_, _) => Ok(()),
        Specification::Save(_) => Ok(()),
        Specification::Type(_) => Ok(()),
    }
}

/// What a procedure declares, by name; of two of one name the first.
pub fn locals(
    alloc: Global,
    names: &Names<'_>,
    scope: usize,
    list: &[Specification],
) -> Result<IndexMap<usize, Described>, AllocError>
    ensures { IfOk result (λ m. m.entries ≡ firsts (described_all (names_view names.now) scope (map specification_view list.now))) }
{
    let mut found = IndexMap::new(alloc);
    for specification in list {
        add_specification(names, scope, &mut found, specification)?;
    }
    Ok(found)
}

fn make_dummy(locals: &IndexMap<usize, Described>, symbol: usize) -> Dummy
    ensures { result ≡ dummy_by (get nat_eq locals.now symbol) }
{
    match locals.get(&symbol) {
        Some(described) => Dummy {
            object: described.object,
            intent: described.intent,
        },
        None => Dummy {
            object: undeclared(),
            intent: None,
        },
    }
}

fn dummies(
    alloc: Global,
    locals: &IndexMap<usize, Described>,
    list: &[Name],
) -> Result<IndexMap<usize, Dummy>, AllocError>
    ensures { IfOk result (λ m. m.entries ≡ firsts (map (dummy_entry (get nat_eq locals.now)) list.now)) }
{
    let mut found = IndexMap::new(alloc);
    for name in list {
        keep_first(&mut found, name.symbol, make_dummy(locals, name.symbol))?;
    }
    Ok(found)
}

fn object_by(locals: &IndexMap<usize, Described>, symbol: usize) -> Object
    ensures { result ≡ object_by (get nat_eq locals.now symbol) }
{
    match locals.get(&symbol) {
        Some(described) => described.object,
        None => undeclared(),
    }
}

/// The result of a function; of a subroutine nothing.
fn result_by(
    names: &Names<'_>,
    scope: usize,
    locals: &IndexMap<usize, Described>,
    kind: ProcedureKind,
    name: Name,
) -> Object
    ensures { result ≡ result_by (names_view names.now) scope (get nat_eq locals.now) kind name }
{
    match kind {
        ProcedureKind::Subroutine => undeclared(),
        ProcedureKind::Function(Some(specifier), _) => typed_object(names, scope, specifier),
        ProcedureKind::Function(None, Some(outcome)) => object_by(locals, outcome.symbol),
        ProcedureKind::Function(None, None) => object_by(locals, name.symbol),
    }
}

/// What a procedure is, by its header and what it declares.
pub fn procedure_thing(
    alloc: Global,
    names: &Names<'_>,
    scope: usize,
    locals: &IndexMap<usize, Described>,
    header: &Header,
) -> Result<Thing, AllocError>
    ensures { IfOk result (λ t. nature_of t ≡ procedure_by (names_view names.now) scope (get nat_eq locals.now) (header_view header.now)) }
{
    let signature = Signature {
        is_pure: header.pure,
        dummies: dummies(alloc, locals, &header.dummies)?,
    };
    match header.kind {
        ProcedureKind::Subroutine => Ok(Thing::Subroutine(signature)),
        ProcedureKind::Function(_, _) => {
            let result = result_by(names, scope, locals, header.kind, header.name);
            Ok(Thing::Function(signature, result))
        }
    }
}

fn is_out(intent: Option<Intent>) -> bool
    ensures { result ≡ is_out intent }
{
    match intent {
        Some(Intent::Out) => true,
        Some(Intent::In) => false,
        Some(Intent::InOut) => false,
        None => false,
    }
}

/// The type that a subroutine with this dummy alone may be final for.
fn final_for(dummy: Described) -> Option<usize>
    ensures { result ≡ final_for dummy }
{
    if dummy.object.is_allocatable {
        return None;
    }
    if is_out(dummy.intent) {
        return None;
    }
    if dummy.is_explicit {
        return None;
    }
    match dummy.object.data_type {
        Some(DataType::Derived(entity)) => Some(entity),
        Some(DataType::Integer(_)) => None,
        Some(DataType::Logical) => None,
        None => None,
    }
}

/// The type that a procedure may be final for.
pub fn final_type(locals: &IndexMap<usize, Described>, header: &Header) -> Option<usize>
    ensures { result ≡ final_type (get nat_eq locals.now) header.now.kind header.now.dummies.items }
{
    match header.kind {
        ProcedureKind::Function(_, _) => None,
        ProcedureKind::Subroutine => match header.dummies.as_slice() {
            [dummy] => match locals.get(&dummy.symbol) {
                Some(described) => final_for(*described),
                None => None,
            },
            [] => None,
            [_, _, ..] => None,
        },
    }
}
