//! The USE statements and the declarations of a specification part.

ghost use Rattle.std.specs.Prelude.{◌≡◌, ◌++◌, map, OnOk, IfOk};
ghost use Rattle.std.specs.List.{flat_map, list_any};
ghost use Rattle.f3_tree.specs.Declarations.{use_view, placed_view, entity_view, type_view, specification_view};
ghost use Rattle.f3_scopes.specs.Outlines.{using_view, own_view};
ghost use Rattle.f3_scopes.specs.Scopes.{renamed, only_item, using, intents_of, kind_of, own, plain, type_own, declared_in, is_protected};

use crate::outline::{Declared, EntityKind, UseItem, UseOutline};
use f3_part_names::listing::accesses_of;
use f3_tree::declaration::{
    Attribute, AttributeKind, Declaration, Entity, Intent, Only, Rename, Selection, Specification,
    TypeDefinition, Use,
};
use f3_tree::expression::Name;
use std::alloc::{AllocError, Global};

fn renamed(rename: Rename) -> UseItem
    ensures { result ≡ renamed rename }
{
    UseItem {
        local: rename.local,
        original: rename.original,
        is_rename: true,
    }
}

fn only_item(only: Only) -> UseItem
    ensures { result ≡ only_item only }
{
    match only {
        Only::Name(name) => UseItem {
            local: name,
            original: name,
            is_rename: false,
        },
        Only::Rename(rename) => renamed(rename),
    }
}

fn renames(alloc: Global, list: &[Rename]) -> Result<Vec<UseItem>, AllocError>
    ensures { IfOk result (λ v. v.items ≡ map renamed list.now) }
{
    let mut items = Vec::new(alloc);
    for rename in list {
        items.push(renamed(*rename))?;
    }
    Ok(items)
}

fn only_items(alloc: Global, list: &[Only]) -> Result<Vec<UseItem>, AllocError>
    ensures { IfOk result (λ v. v.items ≡ map only_item list.now) }
{
    let mut items = Vec::new(alloc);
    for only in list {
        items.push(only_item(*only))?;
    }
    Ok(items)
}

fn using(alloc: Global, statement: &Use) -> Result<UseOutline, AllocError>
    ensures { IfOk result (λ u. using_view u ≡ using (use_view statement.now)) }
{
    let (has_only, items) = match &statement.selection {
        Selection::All(list) => (false, renames(alloc, list)?),
        Selection::Only(list) => (true, only_items(alloc, list)?),
    };
    Ok(UseOutline {
        module: statement.module,
        has_only,
        items,
    })
}

pub fn usings(alloc: Global, list: &[Use]) -> Result<Vec<UseOutline>, AllocError>
    ensures { IfOk result (λ v. map using_view v.items ≡ map using (map use_view list.now)) }
{
    let mut found = Vec::new(alloc);
    for statement in list {
        let outline = using(alloc, statement)?;
        found.push(outline)?;
    }
    Ok(found)
}

fn intents_of(alloc: Global, list: &[Attribute]) -> Result<Vec<Intent>, AllocError>
    ensures { IfOk result (λ v. v.items ≡ intents_of (map placed_view list.now)) }
{
    let mut found = Vec::new(alloc);
    for attribute in list {
        if let AttributeKind::Intent(intent) = &attribute.kind {
            found.push(*intent)?;
        }
    }
    Ok(found)
}

fn has_protected(list: &[Attribute]) -> bool
    ensures { result ≡ list_any (λ p. is_protected p.attribute) (map placed_view list.now) }
{
    for attribute in list {
        if let AttributeKind::Protected = &attribute.kind {
            return true;
        }
    }
    false
}

fn kind_of(list: &[Attribute]) -> EntityKind
    ensures { result ≡ kind_of (map placed_view list.now) }
{
    for attribute in list {
        if let AttributeKind::Parameter = &attribute.kind {
            return EntityKind::Constant;
        }
    }
    EntityKind::Variable
}

fn own(alloc: Global, attributes: &[Attribute], entity: &Entity) -> Result<Declared, AllocError>
    ensures { IfOk result (λ d. own_view d ≡ own (map placed_view attributes.now) (entity_view entity.now)) }
{
    let accesses = accesses_of(alloc, attributes)?;
    let intents = intents_of(alloc, attributes)?;
    Ok(Declared {
        name: entity.name,
        kind: kind_of(attributes),
        accesses,
        is_protected: has_protected(attributes),
        intents,
    })
}

fn owns(
    alloc: Global,
    found: &mut Vec<Declared>,
    declaration: &Declaration,
) -> Result<(), AllocError>
    ensures { OnOk result (map own_view found.new.items ≡ map own_view found.old.items ++ map (own (map placed_view declaration.now.attributes.items)) (map entity_view declaration.now.entities.items)) }
{
    for entity in &declaration.entities {
        let declared = own(alloc, &declaration.attributes, entity)?;
        found.push(declared)?;
    }
    Ok(())
}

pub fn plain(alloc: Global, kind: EntityKind, name: Name) -> Declared
    ensures { own_view result ≡ plain kind name }
{
    Declared {
        name,
        kind,
        accesses: Vec::new(alloc),
        is_protected: false,
        intents: Vec::new(alloc),
    }
}

fn type_own(alloc: Global, definition: &TypeDefinition) -> Result<Declared, AllocError>
    ensures { IfOk result (λ d. own_view d ≡ type_own (type_view definition.now)) }
{
    let mut accesses = Vec::new(alloc);
    if let Some((_, access)) = definition.access {
        accesses.push(access)?;
    }
    Ok(Declared {
        name: definition.name,
        kind: EntityKind::DerivedType,
        accesses,
        is_protected: false,
        intents: Vec::new(alloc),
    })
}

fn add_declared(
    alloc: Global,
    found: &mut Vec<Declared>,
    specification: &Specification,
) -> Result<(), AllocError>
    ensures { OnOk result (map own_view found.new.items ≡ map own_view found.old.items ++ declared_in (specification_view specification.now)) }
{
    match specification {
        Specification::Declaration(declaration) => owns(alloc, found, declaration),
        Specification::Type(definition) => {
            let declared = type_own(alloc, definition)?;
            found.push(declared)?;
            Ok(())
        }
        Specification::Access(_) => Ok(()),
        Specification::Protected(_, _) => Ok(()),
        Specification::Save(_) => Ok(()),
    }
}

pub fn declared(
    alloc: Global,
    found: &mut Vec<Declared>,
    list: &[Specification],
) -> Result<(), AllocError>
    ensures { OnOk result (map own_view found.new.items ≡ map own_view found.old.items ++ flat_map declared_in (map specification_view list.now)) }
{
    for specification in list {
        add_declared(alloc, found, specification)?;
    }
    Ok(())
}
