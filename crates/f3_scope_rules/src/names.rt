//! Lists and sets of names.

ghost use Rattle.std.specs.Prelude.{◌≡◌, map, IfOk};
ghost use Rattle.f3_scopes.specs.Outlines.{own_view, part_view, scope_view};
ghost use Rattle.f3_scope_rules.specs.ScopeBreaks.{component_names, header_names};
ghost use Rattle.f3_scope_rules.specs.Inner.Rows.{symbols, is_known};

use f3_scopes::outline::{Component, Declared, Outline};
use f3_tree::expression::Name;
use indexmap::IndexSet;
use std::alloc::{AllocError, Global};

/// The names that a scope declares, in order.
pub fn declared_names(alloc: Global, declared: &[Declared]) -> Result<Vec<Name>, AllocError>
    ensures { IfOk result (λ v. v.items ≡ map (λ d. d.name) (map own_view declared.now)) }
{
    let mut names = Vec::new(alloc);
    for declaration in declared {
        names.push(declaration.name)?;
    }
    Ok(names)
}

/// The names of a type's components, in order.
pub fn component_names(alloc: Global, parts: &[Component]) -> Result<Vec<Name>, AllocError>
    ensures { IfOk result (λ v. v.items ≡ component_names (map part_view parts.now)) }
{
    let mut names = Vec::new(alloc);
    for part in parts {
        names.push(part.name)?;
    }
    Ok(names)
}

/// The names of a header in the order written: the procedure's, the dummy arguments and the name behind RESULT.
pub fn header_names(alloc: Global, outline: &Outline) -> Result<Vec<Name>, AllocError>
    ensures { IfOk result (λ v. v.items ≡ header_names (scope_view outline.now)) }
{
    let mut names = Vec::new(alloc);
    names.push(outline.name)?;
    names.extend_from_slice(&outline.dummies)?;
    if let Some(outcome) = outline.outcome {
        names.push(outcome)?;
    }
    Ok(names)
}

/// A set of names, by their numbers.
pub fn symbols(alloc: Global, names: &[Name]) -> Result<IndexSet<usize>, AllocError>
    ensures { IfOk result (λ s. s.keys ≡ symbols names.now) }
{
    let mut known = IndexSet::new(alloc);
    for name in names {
        known.insert(name.symbol)?;
    }
    Ok(known)
}

/// Whether a name is in the set.
pub fn is_known(known: &IndexSet<usize>, name: &Name) -> bool
    ensures { result ≡ is_known known.now.keys name.now }
{
    known.contains(&name.symbol)
}
