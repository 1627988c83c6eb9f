//! PROTECTED out of place.

ghost use Rattle.std.specs.Prelude.{◌≡◌, ◌++◌, map, IfOk, OnOk};
ghost use Rattle.std.specs.List.{flat_map};
ghost use Rattle.f3_rules.specs.Least.{Least};
ghost use Rattle.f3_scopes.specs.Outlines.{own_view, scope_view};
ghost use Rattle.f3_scope_rules.specs.ScopeBreaks.{ProtectedMisplaced};
ghost use Rattle.f3_breaks.specs.Among.{Among};
ghost use Rattle.f3_scope_rules.specs.Inner.Rows.{Misprotected, is_variable, variable_name, protected_name};

use crate::access::is_module;
use crate::at::break_at;
use crate::names::{is_known, symbols};
use f3_breaks::first_among;
use f3_rules::breaks::Break;
use f3_rules::rule::Rule;
use f3_scopes::outline::{Declared, EntityKind, Outline};
use f3_tree::expression::Name;
use indexmap::IndexSet;
use std::alloc::{AllocError, Global};

fn is_variable(kind: EntityKind) -> bool
    ensures { result ≡ is_variable kind }
{
    match kind {
        EntityKind::Constant => false,
        EntityKind::Variable => true,
        EntityKind::DerivedType => false,
        EntityKind::Subroutine => false,
        EntityKind::Function => false,
    }
}

/// The names of the variables among these.
fn variable_names(alloc: Global, declared: &[Declared]) -> Result<Vec<Name>, AllocError>
    ensures { IfOk result (λ v. v.items ≡ flat_map variable_name (map own_view declared.now)) }
{
    let mut names = Vec::new(alloc);
    for declaration in declared {
        if is_variable(declaration.kind) {
            names.push(declaration.name)?;
        }
    }
    Ok(names)
}

/// Adds the names of declarations with PROTECTED.
fn add_protected(names: &mut Vec<Name>, declared: &[Declared]) -> Result<(), AllocError>
    ensures { OnOk result (names.new.items ≡ names.old.items ++ flat_map protected_name (map own_view declared.now)) }
{
    for declaration in declared {
        if declaration.is_protected {
            names.push(declaration.name)?;
        }
    }
    Ok(())
}

/// The names under a PROTECTED, statement or attribute.
fn protected_names(alloc: Global, outline: &Outline) -> Result<Vec<Name>, AllocError>
    ensures { IfOk result (λ v. v.items ≡ outline.now.protects.items ++ flat_map protected_name (map own_view outline.now.declared.items)) }
{
    let mut names = Vec::new(alloc);
    names.extend_from_slice(&outline.protects)?;
    add_protected(&mut names, &outline.declared)?;
    Ok(names)
}

/// The first of these names that is no variable of the set; any, outside a module.
fn first_misprotected(
    is_outside: bool,
    variables: &IndexSet<usize>,
    names: &[Name],
) -> Option<Break>
    ensures { Least result (Among (Misprotected is_outside variables.now.keys) names.now) }
{
    first_among(
        names,
        |name| break_at(is_outside | !is_known(variables, name), Rule::N8, name),
    )
}

/// The first name under PROTECTED that is no variable of this module.
pub fn first_protected_misplaced(
    alloc: Global,
    outline: &Outline,
) -> Result<Option<Break>, AllocError>
    ensures { IfOk result (λ first. Least first (ProtectedMisplaced (scope_view outline.now))) }
{
    let variables = variable_names(alloc, &outline.declared)?;
    let variables = symbols(alloc, &variables)?;
    let names = protected_names(alloc, outline)?;
    let is_outside = !is_module(outline.kind);
    Ok(first_misprotected(is_outside, &variables, &names))
}
