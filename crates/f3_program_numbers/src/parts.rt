//! The entities of specification parts.

ghost use Rattle.std.specs.Prelude.{◌≡◌, ◌+◌, ◌++◌, ◌<◌, ◌^◌, map, length, OnOk};
ghost use Rattle.std.specs.List.{flat_map};
ghost use Rattle.f3_scopes.specs.Scopes.{declared_in};
ghost use Rattle.f3_tree.specs.Declarations.{declaration_view, entity_view, specification_view};
ghost use Rattle.f3_declared.specs.Declarations.{IsRead, tree_of};
ghost use Rattle.f3_program_numbers.specs.Chosen.{choice_of, taken_one, taken_from, taken_in, taken_along, defined_in, defined_along};

use crate::wanted::{Wanted, takes};
use f3_declared::attributes::{Reading, read};
use f3_tree::declaration::{Declaration, Entity, Specification};
use std::alloc::AllocError;

/// How many entities a statement of a specification part declares.
pub fn declared_by(specification: &Specification) -> usize
    ensures { result ≡ length (declared_in (specification_view specification.now)) }
{
    match specification {
        Specification::Declaration(declaration) => declaration.entities.len(),
        Specification::Type(_) => 1,
        Specification::Access(_) => 0,
        Specification::Protected(_, _) => 0,
        Specification::Save(_) => 0,
    }
}

/// The entity behind those that a specification part declares, of which this is the first.
pub fn behind_declared(first: usize, list: &[Specification]) -> usize
    requires { first + length (flat_map declared_in (map specification_view list.now)) < 2 ^ 64 }
    ensures { result ≡ first + length (flat_map declared_in (map specification_view list.now)) }
{
    let mut next = first;
    for specification in list {
        next += declared_by(specification);
    }
    next
}

/// Adds an entity where its name is taken.
fn add_one(
    found: &mut Vec<usize>,
    wanted: Wanted<'_>,
    entity: usize,
    reading: &Reading<'_>,
    declared: &Entity,
) -> Result<(), AllocError>
    requires { IsRead reading.now }
    ensures { OnOk result (found.new.items ≡ found.old.items ++ taken_one (choice_of wanted.entry) entity (tree_of reading.now, entity_view declared.now)) }
{
    if takes(wanted, reading, declared) {
        found.push(entity)?;
    }
    Ok(())
}

/// Adds those of a declaration, of which this is the first.
fn add_declared(
    found: &mut Vec<usize>,
    wanted: Wanted<'_>,
    entity: usize,
    declaration: &Declaration,
) -> Result<(), AllocError>
    requires { entity + length (declaration_view declaration.now).entities < 2 ^ 64 }
    ensures { OnOk result (found.new.items ≡ found.old.items ++ taken_from (choice_of wanted.entry) entity (declaration_view declaration.now) (declaration_view declaration.now).entities) }
{
    let reading = read(declaration);
    let mut next = entity;
    for declared in &declaration.entities {
        add_one(found, wanted, next, &reading, declared)?;
        next += 1;
    }
    Ok(())
}

fn add_taken(
    found: &mut Vec<usize>,
    wanted: Wanted<'_>,
    entity: usize,
    specification: &Specification,
) -> Result<(), AllocError>
    requires { entity + length (declared_in (specification_view specification.now)) < 2 ^ 64 }
    ensures { OnOk result (found.new.items ≡ found.old.items ++ taken_in (choice_of wanted.entry) entity (specification_view specification.now)) }
{
    match specification {
        Specification::Declaration(declaration) => add_declared(found, wanted, entity, declaration),
        Specification::Type(_) => Ok(()),
        Specification::Access(_) => Ok(()),
        Specification::Protected(_, _) => Ok(()),
        Specification::Save(_) => Ok(()),
    }
}

/// Adds the entities of a specification part whose names are taken. Its first entity is given.
///
/// # Errors
///
/// Where memory runs out.
pub fn add_names(
    found: &mut Vec<usize>,
    wanted: Wanted<'_>,
    entity: usize,
    list: &[Specification],
) -> Result<(), AllocError>
    requires { entity + length (flat_map declared_in (map specification_view list.now)) < 2 ^ 64 }
    ensures { OnOk result (found.new.items ≡ found.old.items ++ taken_along (choice_of wanted.entry) entity (map specification_view list.now)) }
{
    let mut next = entity;
    for specification in list {
        add_taken(found, wanted, next, specification)?;
        next += declared_by(specification);
    }
    Ok(())
}

fn add_defined(
    found: &mut Vec<usize>,
    entity: usize,
    specification: &Specification,
) -> Result<(), AllocError>
    ensures { OnOk result (found.new.items ≡ found.old.items ++ defined_in entity (specification_view specification.now)) }
{
    match specification {
        Specification::Type(_) => {
            found.push(entity)?;
            Ok(())
        }
        Specification::Declaration(_) => Ok(()),
        Specification::Access(_) => Ok(()),
        Specification::Protected(_, _) => Ok(()),
        Specification::Save(_) => Ok(()),
    }
}

/// Adds the types that a specification part defines. Its first entity is given.
///
/// # Errors
///
/// Where memory runs out.
pub fn add_types(
    found: &mut Vec<usize>,
    entity: usize,
    list: &[Specification],
) -> Result<(), AllocError>
    requires { entity + length (flat_map declared_in (map specification_view list.now)) < 2 ^ 64 }
    ensures { OnOk result (found.new.items ≡ found.old.items ++ defined_along entity (map specification_view list.now)) }
{
    let mut next = entity;
    for specification in list {
        add_defined(found, next, specification)?;
        next += declared_by(specification);
    }
    Ok(())
}
