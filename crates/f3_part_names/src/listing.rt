//! The names to which a specification part gives an access or PROTECTED, and the places of its access attributes.

ghost use Rattle.std.specs.Prelude.{◌≡◌, ◌++◌, map, OnOk, IfOk};
ghost use Rattle.std.specs.List.{flat_map};
ghost use Rattle.f3_tree.specs.Declarations.{placed_view, entity_view, specification_view};
ghost use Rattle.f3_part_names.specs.Given.{accesses_of, access_place, access_places_in, each_time, given_to, given_in, protects_in};

use f3_places::source::Place;
use f3_tree::declaration::{Accessibility, Attribute, AttributeKind, Entity, Specification};
use f3_tree::expression::Name;
use std::alloc::{AllocError, Global};

/// The access attributes among these, in the order written.
pub fn accesses_of(alloc: Global, list: &[Attribute]) -> Result<Vec<Accessibility>, AllocError>
    ensures { IfOk result (λ v. v.items ≡ accesses_of (map placed_view list.now)) }
{
    let mut found = Vec::new(alloc);
    for attribute in list {
        if let AttributeKind::Access(access) = &attribute.kind {
            found.push(*access)?;
        }
    }
    Ok(found)
}

fn attribute_places(found: &mut Vec<Place>, list: &[Attribute]) -> Result<(), AllocError>
    ensures { OnOk result (found.new.items ≡ found.old.items ++ flat_map access_place (map placed_view list.now)) }
{
    for attribute in list {
        if let AttributeKind::Access(_) = &attribute.kind {
            found.push(attribute.place)?;
        }
    }
    Ok(())
}

fn add_places(found: &mut Vec<Place>, specification: &Specification) -> Result<(), AllocError>
    ensures { OnOk result (found.new.items ≡ found.old.items ++ access_places_in (specification_view specification.now)) }
{
    match specification {
        Specification::Declaration(declaration) => attribute_places(found, &declaration.attributes),
        Specification::Type(definition) => {
            if let Some((place, _)) = definition.access {
                found.push(place)?;
            }
            Ok(())
        }
        Specification::Access(_) => Ok(()),
        Specification::Protected(_, _) => Ok(()),
        Specification::Save(_) => Ok(()),
    }
}

/// The places of the access attributes of a specification part.
pub fn access_places(alloc: Global, list: &[Specification]) -> Result<Vec<Place>, AllocError>
    ensures { IfOk result (λ v. v.items ≡ flat_map access_places_in (map specification_view list.now)) }
{
    let mut found = Vec::new(alloc);
    for specification in list {
        add_places(&mut found, specification)?;
    }
    Ok(found)
}

fn each_time(
    found: &mut Vec<Name>,
    name: Name,
    accesses: &[Accessibility],
) -> Result<(), AllocError>
    ensures { OnOk result (found.new.items ≡ found.old.items ++ each_time name accesses.now) }
{
    for access in accesses {
        match access {
            Accessibility::Public => found.push(name)?,
            Accessibility::Private => found.push(name)?,
        }
    }
    Ok(())
}

fn given_entities(
    found: &mut Vec<Name>,
    accesses: &[Accessibility],
    entities: &[Entity],
) -> Result<(), AllocError>
    ensures { OnOk result (found.new.items ≡ found.old.items ++ flat_map (given_to accesses.now) (map entity_view entities.now)) }
{
    for entity in entities {
        each_time(found, entity.name, accesses)?;
    }
    Ok(())
}

fn add_given(
    alloc: Global,
    found: &mut Vec<Name>,
    specification: &Specification,
) -> Result<(), AllocError>
    ensures { OnOk result (found.new.items ≡ found.old.items ++ given_in (specification_view specification.now)) }
{
    match specification {
        Specification::Declaration(declaration) => {
            let accesses = accesses_of(alloc, &declaration.attributes)?;
            given_entities(found, &accesses, &declaration.entities)
        }
        Specification::Access(access) => found.extend_from_slice(&access.names),
        Specification::Type(definition) => {
            if definition.access.is_some() {
                found.push(definition.name)?;
            }
            Ok(())
        }
        Specification::Protected(_, _) => Ok(()),
        Specification::Save(_) => Ok(()),
    }
}

/// The names to which a specification part gives an access, each time that it does.
pub fn given(alloc: Global, list: &[Specification]) -> Result<Vec<Name>, AllocError>
    ensures { IfOk result (λ v. v.items ≡ flat_map given_in (map specification_view list.now)) }
{
    let mut found = Vec::new(alloc);
    for specification in list {
        add_given(alloc, &mut found, specification)?;
    }
    Ok(found)
}

fn add_protected(found: &mut Vec<Name>, specification: &Specification) -> Result<(), AllocError>
    ensures { OnOk result (found.new.items ≡ found.old.items ++ protects_in (specification_view specification.now)) }
{
    if let Specification::Protected(_, names) = specification {
        found.extend_from_slice(names)?;
    }
    Ok(())
}

/// The names of the PROTECTED statements of a specification part.
pub fn protects(alloc: Global, list: &[Specification]) -> Result<Vec<Name>, AllocError>
    ensures { IfOk result (λ v. v.items ≡ flat_map protects_in (map specification_view list.now)) }
{
    let mut found = Vec::new(alloc);
    for specification in list {
        add_protected(&mut found, specification)?;
    }
    Ok(found)
}
