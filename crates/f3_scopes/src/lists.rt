//! The access statements and the components of a specification part.

ghost use Rattle.std.specs.Prelude.{◌≡◌, ◌++◌, map, OnOk, IfOk};
ghost use Rattle.std.specs.List.{flat_map};
ghost use Rattle.f3_tree.specs.Declarations.{placed_view, entity_view, declaration_view, specification_view};
ghost use Rattle.f3_scopes.specs.Outlines.{listed_view, part_view};
ghost use Rattle.f3_scopes.specs.Scopes.{accesses_in, component, components_of, types_in, parts_view};

use crate::outline::{AccessOutline, Component};
use f3_part_names::listing::accesses_of;
use f3_tree::declaration::{Attribute, Declaration, Entity, Specification};
use std::alloc::{AllocError, Global};

fn add_access(
    alloc: Global,
    found: &mut Vec<AccessOutline>,
    specification: &Specification,
) -> Result<(), AllocError>
    ensures { OnOk result (map listed_view found.new.items ≡ map listed_view found.old.items ++ accesses_in (specification_view specification.now)) }
{
    if let Specification::Access(access) = specification {
        let mut names = Vec::new(alloc);
        names.extend_from_slice(&access.names)?;
        found.push(AccessOutline {
            place: access.place,
            accessibility: access.accessibility,
            names,
        })?;
    }
    Ok(())
}

/// The access statements of a specification part.
pub fn accesses(alloc: Global, list: &[Specification]) -> Result<Vec<AccessOutline>, AllocError>
    ensures { IfOk result (λ v. map listed_view v.items ≡ flat_map accesses_in (map specification_view list.now)) }
{
    let mut found = Vec::new(alloc);
    for specification in list {
        add_access(alloc, &mut found, specification)?;
    }
    Ok(found)
}

fn component(
    alloc: Global,
    attributes: &[Attribute],
    entity: &Entity,
) -> Result<Component, AllocError>
    ensures { IfOk result (λ c. part_view c ≡ component (map placed_view attributes.now) (entity_view entity.now)) }
{
    let accesses = accesses_of(alloc, attributes)?;
    Ok(Component {
        name: entity.name,
        accesses,
    })
}

fn add_components(
    alloc: Global,
    found: &mut Vec<Component>,
    declaration: &Declaration,
) -> Result<(), AllocError>
    ensures { OnOk result (map part_view found.new.items ≡ map part_view found.old.items ++ components_of (declaration_view declaration.now)) }
{
    for entity in &declaration.entities {
        let one = component(alloc, &declaration.attributes, entity)?;
        found.push(one)?;
    }
    Ok(())
}

fn components(alloc: Global, list: &[Declaration]) -> Result<Vec<Component>, AllocError>
    ensures { IfOk result (λ v. map part_view v.items ≡ flat_map components_of (map declaration_view list.now)) }
{
    let mut found = Vec::new(alloc);
    for declaration in list {
        add_components(alloc, &mut found, declaration)?;
    }
    Ok(found)
}

fn add_type(
    alloc: Global,
    found: &mut Vec<Vec<Component>>,
    specification: &Specification,
) -> Result<(), AllocError>
    ensures { OnOk result (map parts_view found.new.items ≡ map parts_view found.old.items ++ types_in (specification_view specification.now)) }
{
    if let Specification::Type(definition) = specification {
        let parts = components(alloc, &definition.components)?;
        found.push(parts)?;
    }
    Ok(())
}

/// The components of the types that a specification part defines.
pub fn types(alloc: Global, list: &[Specification]) -> Result<Vec<Vec<Component>>, AllocError>
    ensures { IfOk result (λ v. map parts_view v.items ≡ flat_map types_in (map specification_view list.now)) }
{
    let mut found = Vec::new(alloc);
    for specification in list {
        add_type(alloc, &mut found, specification)?;
    }
    Ok(found)
}
