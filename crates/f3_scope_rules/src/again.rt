//! Names that are declared twice.

ghost use Rattle.std.specs.Prelude.{◌≡◌, map, IfOk};
ghost use Rattle.f3_rules.specs.Least.{Least};
ghost use Rattle.f3_rules.specs.declared.rule.Rule.TheVariants.{N3};
ghost use Rattle.f3_scopes.specs.Outlines.{part_view, scope_view};
ghost use Rattle.f3_scope_rules.specs.ScopeBreaks.{declared_names, component_names, DeclaredTwice};
ghost use Rattle.f3_breaks.specs.Among.{Among};
ghost use Rattle.f3_scope_rules.specs.Inner.Rows.{AgainIn, ComponentAgain, OwnName, has_other_result};

use crate::at::break_at;
use crate::names::{component_names, header_names};
use f3_breaks::first_among;
use f3_rules::breaks::{Break, earlier};
use f3_rules::rule::Rule;
use f3_scopes::outline::{Component, Outline, ScopeKind};
use f3_tree::expression::Name;
use indexmap::IndexSet;
use std::alloc::{AllocError, Global};

/// The first name of a list that stands behind the same name breaks the rule.
pub fn first_again(alloc: Global, rule: Rule, names: &[Name]) -> Result<Option<Break>, AllocError>
    ensures { IfOk result (λ first. Least first (AgainIn rule names.now)) }
{
    let mut seen = IndexSet::new(alloc);
    let mut first = None;
    for name in names {
        let was_seen = seen.contains(&name.symbol);
        first = earlier(first, break_at(was_seen, rule, name));
        seen.insert(name.symbol)?;
    }
    Ok(first)
}

/// The first of these components that stands behind one of the same name.
fn component_again(alloc: Global, parts: &[Component]) -> Result<Option<Break>, AllocError>
    ensures { IfOk result (λ first. Least first (AgainIn N3 (component_names (map part_view parts.now)))) }
{
    let names = component_names(alloc, parts)?;
    first_again(alloc, Rule::N3, &names)
}

/// The first component that a type has declared before.
fn first_component_again(
    alloc: Global,
    types: &[Vec<Component>],
) -> Result<Option<Break>, AllocError>
    ensures { IfOk result (λ first. Least first (Among ComponentAgain types.now)) }
{
    let mut first = None;
    for parts in types {
        first = earlier(first, component_again(alloc, parts)?);
    }
    Ok(first)
}

/// Whether a procedure's name does not mean its result.
fn has_other_result(kind: ScopeKind, outcome: Option<Name>) -> bool
    ensures { result ≡ has_other_result kind outcome }
{
    match kind {
        ScopeKind::Module => false,
        ScopeKind::Program => false,
        ScopeKind::Subroutine => true,
        ScopeKind::Function => outcome.is_some(),
        ScopeKind::Associate => false,
    }
}

/// The first declared name that is the procedure's own, where that does not mean the result.
fn first_own_name(has_other_result: bool, own: &Name, declared: &[Name]) -> Option<Break>
    ensures { Least result (Among (OwnName has_other_result own.now.symbol) declared.now) }
{
    let symbol = own.symbol;
    first_among(
        declared,
        |name| break_at(has_other_result & (name.symbol == symbol), Rule::N3, name),
    )
}

/// The first name that its scope has declared before, in the declarations or in the header, or its type as a component.
pub fn first_declared_twice(
    alloc: Global,
    outline: &Outline,
    declared: &[Name],
) -> Result<Option<Break>, AllocError>
    requires names { declared.now ≡ declared_names (scope_view outline.now) }
    ensures { IfOk result (λ first. Least first (DeclaredTwice (scope_view outline.now))) }
{
    let header = header_names(alloc, outline)?;
    let in_declarations = first_again(alloc, Rule::N3, declared)?;
    let in_header = first_again(alloc, Rule::N3, &header)?;
    let has_other_result = has_other_result(outline.kind, outline.outcome);
    let own = first_own_name(has_other_result, &outline.name, declared);
    let component = first_component_again(alloc, &outline.types)?;
    Ok(earlier(earlier(in_declarations, in_header), earlier(own, component)))
}
