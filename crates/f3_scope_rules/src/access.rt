//! PUBLIC and PRIVATE out of place or given twice.

ghost use Rattle.std.specs.Prelude.{◌≡◌, ◌==◌, false, None, nat_lt, length, map, if◌then◌else◌, IfOk};
ghost use Rattle.f3_rules.specs.Least.{Least, first_of};
ghost use Rattle.f3_scopes.specs.Outlines.{listed_view, scope_view};
ghost use Rattle.f3_scope_rules.specs.ScopeBreaks.{AccessOutside, AccessTwice};
ghost use Rattle.f3_scopes.specs.Kinds.{is_module};
ghost use Rattle.f3_breaks.specs.Among.{Among};
ghost use Rattle.f3_scope_rules.specs.Inner.Rows.{pass, StatementOutside, AttributeOutside, ComponentTwice, ComponentsTwice, default_row, default_next};

use crate::again::first_again;
use crate::at::{break_at, break_at_keyword};
use f3_breaks::first_among;
use f3_places::source::Place;
use f3_rules::breaks::{Break, earlier};
use f3_rules::rule::Rule;
use f3_scopes::outline::{AccessOutline, Component, Outline, ScopeKind};
use f3_tree::declaration::Accessibility;
use f3_tree::expression::Name;
use std::alloc::{AllocError, Global};

/// Whether a scope is a module.
pub fn is_module(kind: ScopeKind) -> bool
    ensures { result ≡ is_module kind }
{
    match kind {
        ScopeKind::Module => true,
        ScopeKind::Program => false,
        ScopeKind::Subroutine => false,
        ScopeKind::Function => false,
        ScopeKind::Associate => false,
    }
}

/// The first access statement, outside a module.
fn first_statement_outside(is_outside: bool, statements: &[AccessOutline]) -> Option<Break>
    ensures { Least result (Among (StatementOutside is_outside) statements.now) }
{
    first_among(
        statements,
        |statement| break_at_keyword(is_outside, Rule::N5, &statement.place),
    )
}

/// The first access attribute, outside a module.
fn first_attribute_outside(is_outside: bool, places: &[Place]) -> Option<Break>
    ensures { Least result (Among (AttributeOutside is_outside) places.now) }
{
    first_among(
        places,
        |place| break_at_keyword(is_outside, Rule::N5, place),
    )
}

/// The first PUBLIC or PRIVATE outside a module.
pub fn first_access_outside(outline: &Outline) -> Option<Break>
    ensures { Least result (AccessOutside (scope_view outline.now)) }
{
    let is_outside = !is_module(outline.kind);
    earlier(
        first_statement_outside(is_outside, &outline.accesses),
        first_attribute_outside(is_outside, &outline.access_attributes),
    )
}

/// Whether a component is given more than one access.
fn is_given_twice(accesses: &[Accessibility]) -> bool
    ensures { result ≡ nat_lt 1 (length accesses.now) }
{
    accesses.len() > 1
}

/// The first component of a type that is given two accesses.
fn first_component_twice(parts: &[Component]) -> Option<Break>
    ensures { Least result (Among ComponentTwice parts.now) }
{
    first_among(
        parts,
        |part| break_at(is_given_twice(&part.accesses), Rule::N6, &part.name),
    )
}

/// The first component of these types that is given two accesses.
fn first_component_of_types(types: &[Vec<Component>]) -> Option<Break>
    ensures { Least result (Among ComponentsTwice types.now) }
{
    first_among(types, |parts| first_component_twice(parts))
}

/// Whether PUBLIC or PRIVATE has no list.
fn is_default(names: &[Name]) -> bool
    ensures { result ≡ (length names.now == 0) }
{
    names.is_empty()
}

/// The first PUBLIC or PRIVATE without a list behind another.
fn first_default_again(statements: &[AccessOutline]) -> Option<Break>
    ensures { result ≡ first_of (pass default_row default_next false (map listed_view statements.now)) }
{
    let mut had_one = false;
    let mut first = None;
    for statement in statements {
        let is_default = is_default(&statement.names);
        let is_again = had_one & is_default;
        let found = break_at_keyword(is_again, Rule::N6, &statement.place);
        first = earlier(first, found);
        had_one |= is_default;
    }
    first
}

/// The first PUBLIC or PRIVATE without a list behind another, in a module.
fn first_default_of_module(outline: &Outline) -> Option<Break>
    ensures { result ≡ (if is_module outline.now.kind then first_of (pass default_row default_next false (map listed_view outline.now.accesses.items)) else None) }
{
    if is_module(outline.kind) {
        first_default_again(&outline.accesses)
    } else {
        None
    }
}

/// The first of two accesses of a name, of a component or of a module.
pub fn first_access_twice(alloc: Global, outline: &Outline) -> Result<Option<Break>, AllocError>
    ensures { IfOk result (λ first. Least first (AccessTwice (scope_view outline.now))) }
{
    let name = first_again(alloc, Rule::N6, &outline.given)?;
    let component = first_component_of_types(&outline.types);
    let module = first_default_of_module(outline);
    Ok(earlier(earlier(name, component), module))
}
