//! Components of derived types (4.5.3).

ghost use Rattle.std.specs.Prelude.{◌≡◌, ◌++◌, map, IfOk, OnOk};
ghost use Rattle.f3_scopes.specs.Given.{accesses_of};
ghost use Rattle.f3_tree.specs.Declarations.{declaration_view, entity_view, placed_view, type_view};
ghost use Rattle.f3_type_rules.specs.Names.{is_private_by};
ghost use Rattle.f3_declared.specs.Declarations.{IsRead, tree_of};
ghost use Rattle.f3_elaboration.specs.Declarations as elaborated;
ghost use Rattle.f3_elaboration.specs.DeclaredViews.{component_view};
ghost use Rattle.f3_elaboration.specs.Numbers.{Definition, Inner};
ghost use Rattle.f3_declaration_nodes.specs.Stands.{Stands};
ghost use Rattle.f3_declaration_nodes.specs.Tables.{component_by, components_by, declared_by, is_private_with};

use crate::declared::make_declared;
use crate::whole::Whole;
use f3_declared::attributes::{Reading, read};
use f3_program::declarations::Component;
use f3_tree::declaration::{
    Accessibility, Attribute, AttributeKind, Declaration, Entity, TypeDefinition,
};
use std::alloc::{AllocError, Global};

fn is_private_with(access: Accessibility) -> bool
    ensures { result ≡ is_private_with access }
{
    match access {
        Accessibility::Public => false,
        Accessibility::Private => true,
    }
}

/// Whether a component is private: by its own access, or by that of its type.
fn is_private_by(default: bool, list: &[Attribute]) -> bool
    ensures { result ≡ is_private_by default (accesses_of (map placed_view list.now)) }
{
    for attribute in list {
        if let AttributeKind::Access(access) = &attribute.kind {
            return is_private_with(*access);
        }
    }
    default
}

/// A component of a type that is defined in a scope.
fn component(
    alloc: Global,
    whole: Whole<'_>,
    scope: usize,
    is_private: bool,
    reading: &Reading<'_>,
    entity: &Entity,
) -> Result<Component, AllocError>
    requires { IsRead reading.now }
    ensures { IfOk result (λ c. component_view c ≡ record { declared = declared_by whole.entry scope scope (tree_of reading.now, entity_view entity.now); is_private = is_private }) }
{
    Ok(Component {
        declared: make_declared(alloc, whole, scope, scope, reading, entity)?,
        is_private,
    })
}

fn add_components(
    alloc: Global,
    whole: Whole<'_>,
    scope: usize,
    default: bool,
    found: &mut Vec<Component>,
    declaration: &Declaration,
) -> Result<(), AllocError>
    ensures { OnOk result (map component_view found.new.items ≡ map component_view found.old.items ++ map (component_by whole.entry scope default (declaration_view declaration.now)) (declaration_view declaration.now).entities) }
{
    let reading = read(declaration);
    let is_private = is_private_by(default, &declaration.attributes);
    for entity in &declaration.entities {
        let component = component(alloc, whole, scope, is_private, &reading, entity)?;
        found.push(component)?;
    }
    Ok(())
}

fn make_components(
    alloc: Global,
    whole: Whole<'_>,
    scope: usize,
    definition: &TypeDefinition,
) -> Result<Vec<Component>, AllocError>
    ensures { IfOk result (λ v. map component_view v.items ≡ components_by whole.entry scope (type_view definition.now)) }
{
    let mut found = Vec::new(alloc);
    let default = definition.private.is_some();
    for declaration in &definition.components {
        add_components(alloc, whole, scope, default, &mut found, declaration)?;
    }
    Ok(found)
}

/// The components of a type that is defined in a scope, in order (4.5.3).
///
/// # Errors
///
/// Where memory runs out.
pub fn components(
    alloc: Global,
    whole: Whole<'_>,
    scope: usize,
    definition: &TypeDefinition,
) -> Result<Vec<Component>, AllocError>
    ensures { IfOk result (λ v. (w : elaborated.Whole) (inner : Inner) (t : Definition) → t.unit.scope ≡ scope → t.tree ≡ type_view definition.now → Stands whole.entry w inner → map component_view v.items ≡ elaborated.components w t) }
{
    let found = make_components(alloc, whole, scope, definition)?;
    Ok(found)
}
