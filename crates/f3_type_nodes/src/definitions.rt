//! The types that a specification part defines (4.5).

ghost use Rattle.std.specs.Prelude.{◌≡◌, ◌+◌, ◌<◌, ◌^◌, ◌++◌, map, length, IfOk, OnOk};
ghost use Rattle.std.specs.List.{flat_map};
ghost use Rattle.f3_scopes.specs.Scopes.{declared_in};
ghost use Rattle.f3_tree.specs.Declarations.{specification_view, type_view};
ghost use Rattle.f3_type_rules.specs.Members.{Numbered};
ghost use Rattle.f3_elaboration.specs.Declarations as elaborated;
ghost use Rattle.f3_elaboration.specs.DeclaredViews.{derived_view};
ghost use Rattle.f3_elaboration.specs.Numbers.{along_part, types_in, Inner};
ghost use Rattle.f3_type_nodes.specs.Inner.Units.{definition_of, IsHere};

use crate::finals::finals;
use f3_declaration_nodes::components::components;
use f3_declaration_nodes::whole::Whole;
use f3_part_rules::finalizers::Finalizers;
use f3_program::declarations::Derived;
use f3_tree::declaration::{Specification, TypeDefinition};
use std::alloc::{AllocError, Global};

/// A type by its entity and its definition in a module, which has this scope (4.5).
///
/// # Errors
///
/// Where memory runs out.
pub fn derived(
    alloc: Global,
    whole: Whole<'_>,
    finalizers: Finalizers<'_>,
    scope: usize,
    entity: usize,
    definition: &TypeDefinition,
) -> Result<Derived, AllocError>
    ensures { IfOk result (λ d. (w : elaborated.Whole) (inner : Inner) (u : Numbered) → IsHere whole.entry finalizers.entry scope w inner u → derived_view d ≡ elaborated.derived w (definition_of u entity (type_view definition.now))) }
{
    let components = components(alloc, whole, scope, definition)?;
    let finals = finals(alloc, whole, finalizers, scope, entity, &definition.finals)?;
    Ok(Derived {
        home: scope,
        components,
        finals,
    })
}

/// How many entities a statement of a specification part declares.
fn declared_by(specification: &Specification) -> usize
    ensures { result ≡ length (declared_in (specification_view specification.now)) }
{
    match specification {
        Specification::Declaration(declaration) => declaration.entities.len(),
        Specification::Type(_) => 1,
        Specification::Access(_) => 0,
        Specification::Protected(_, _) => 0,
        Specification::Save(_) => 0,
    }
}

/// The entity behind those that a specification part declares, of which this is the first.
pub fn behind_declared(first: usize, list: &[Specification]) -> usize
    requires { first + length (flat_map declared_in (map specification_view list.now)) < 2 ^ 64 }
    ensures { result ≡ first + length (flat_map declared_in (map specification_view list.now)) }
{
    let mut next = first;
    for specification in list {
        next += declared_by(specification);
    }
    next
}

/// Adds the type that a statement defines, where it is a definition.
fn add_definition(
    alloc: Global,
    whole: Whole<'_>,
    finalizers: Finalizers<'_>,
    scope: usize,
    entity: usize,
    found: &mut Vec<Derived>,
    given: &Specification,
) -> Result<(), AllocError>
    ensures { OnOk result ((w : elaborated.Whole) (inner : Inner) (u : Numbered) → IsHere whole.entry finalizers.entry scope w inner u → map derived_view found.new.items ≡ map derived_view found.old.items ++ map (elaborated.derived w) (types_in u entity (specification_view given.now))) }
{
    match given {
        Specification::Type(definition) => {
            let last = derived(alloc, whole, finalizers, scope, entity, definition)?;
            found.push(last)?;
            Ok(())
        }
        Specification::Declaration(_) => Ok(()),
        Specification::Access(_) => Ok(()),
        Specification::Protected(_, _) => Ok(()),
        Specification::Save(_) => Ok(()),
    }
}

/// Adds the types that the specification part of a unit defines, of which this is the first entity.
///
/// # Errors
///
/// Where memory runs out.
pub fn add_definitions(
    alloc: Global,
    whole: Whole<'_>,
    finalizers: Finalizers<'_>,
    scope: usize,
    first: usize,
    found: &mut Vec<Derived>,
    list: &[Specification],
) -> Result<(), AllocError>
    requires { first + length (flat_map declared_in (map specification_view list.now)) < 2 ^ 64 }
    ensures { OnOk result ((w : elaborated.Whole) (inner : Inner) (u : Numbered) → IsHere whole.entry finalizers.entry scope w inner u → map derived_view found.new.items ≡ map derived_view found.old.items ++ map (elaborated.derived w) (along_part (types_in u) first (map specification_view list.now))) }
{
    let mut next = first;
    for given in list {
        add_definition(alloc, whole, finalizers, scope, next, found, given)?;
        next += declared_by(given);
    }
    Ok(())
}
