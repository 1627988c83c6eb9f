//! The components of derived types (4.5.3).

ghost use Rattle.std.specs.Prelude.{◌≡◌, map, OnOk, IfOk};
ghost use Rattle.f3_tree.specs.Declarations.{placed_view, entity_view, declaration_view, type_view};
ghost use Rattle.f3_scopes.specs.Given.{accesses_of};
ghost use Rattle.f3_type_rules.specs.Names.{is_private_by, component, components};
ghost use Rattle.f3_natures.specs.Known.{names_view};
ghost use Rattle.f3_natures.specs.Entries.{firsts, firsts_after};
ghost use Rattle.f3_natures.specs.Inner.Parts.{is_private_with, component_by};

use crate::entries::keep_first;
use crate::names::Names;
use crate::objects::{Common, common_of, describe};
use f3_kinds::things::Component;
use f3_tree::declaration::{
    Accessibility, Attribute, AttributeKind, Declaration, Entity, TypeDefinition,
};
use indexmap::IndexMap;
use std::alloc::{AllocError, Global};

fn is_private_with(access: Accessibility) -> bool
    ensures { result ≡ is_private_with access }
{
    match access {
        Accessibility::Public => false,
        Accessibility::Private => true,
    }
}

/// Whether a component is private: by its own access, or by that of its type.
fn is_private_by(default: bool, list: &[Attribute]) -> bool
    ensures { result ≡ is_private_by default (accesses_of (map placed_view list.now)) }
{
    for attribute in list {
        if let AttributeKind::Access(access) = &attribute.kind {
            return is_private_with(*access);
        }
    }
    default
}

fn make_component(common: Common, is_private: bool, entity: &Entity) -> Component
    ensures { result ≡ component_by common is_private (entity_view entity.now) }
{
    Component {
        object: describe(common, entity).object,
        is_private,
        is_initialized: entity.initial.is_some(),
    }
}

fn add_components(
    names: &Names<'_>,
    scope: usize,
    is_private: bool,
    found: &mut IndexMap<usize, Component>,
    declaration: &Declaration,
) -> Result<(), AllocError>
    ensures { OnOk result (found.new.entries ≡ firsts_after found.old.entries (map (component (names_view names.now) scope is_private (declaration_view declaration.now)) (declaration_view declaration.now).entities)) }
{
    let common = common_of(names, scope, declaration);
    let is_private = is_private_by(is_private, &declaration.attributes);
    for entity in &declaration.entities {
        keep_first(
            found,
            entity.name.symbol,
            make_component(common, is_private, entity),
        )?;
    }
    Ok(())
}

/// The components of a type that is defined in a scope, in order; of two of one name the first.
pub fn components(
    alloc: Global,
    names: &Names<'_>,
    scope: usize,
    definition: &TypeDefinition,
) -> Result<IndexMap<usize, Component>, AllocError>
    ensures { IfOk result (λ m. m.entries ≡ firsts (components (names_view names.now) scope (type_view definition.now))) }
{
    let mut found = IndexMap::new(alloc);
    let is_private = definition.private.is_some();
    for declaration in &definition.components {
        add_components(names, scope, is_private, &mut found, declaration)?;
    }
    Ok(found)
}
