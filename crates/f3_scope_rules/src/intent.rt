//! INTENT missing or out of place.

ghost use Rattle.std.specs.Prelude.{◌≡◌, map, IfOk};
ghost use Rattle.std.specs.List.{list_any};
ghost use Rattle.f3_rules.specs.Least.{Least};
ghost use Rattle.f3_scopes.specs.Outlines.{own_view, scope_view};
ghost use Rattle.f3_scope_rules.specs.ScopeBreaks.{specified, IntentMisplaced};
ghost use Rattle.f3_breaks.specs.Among.{Among};
ghost use Rattle.f3_scope_rules.specs.Inner.Rows.{Misintended, is_other, is_misplaced, is_function};

use crate::at::break_at;
use crate::names::{is_known, symbols};
use f3_breaks::first_among;
use f3_rules::breaks::Break;
use f3_rules::rule::Rule;
use f3_scopes::outline::{Declared, Outline, ScopeKind};
use f3_tree::declaration::Intent;
use indexmap::IndexSet;
use std::alloc::{AllocError, Global};

fn is_function(kind: ScopeKind) -> bool
    ensures { result ≡ is_function kind }
{
    match kind {
        ScopeKind::Module => false,
        ScopeKind::Program => false,
        ScopeKind::Subroutine => false,
        ScopeKind::Function => true,
        ScopeKind::Associate => false,
    }
}

fn is_other(intent: Intent) -> bool
    ensures { result ≡ is_other intent }
{
    match intent {
        Intent::In => false,
        Intent::Out => true,
        Intent::InOut => true,
    }
}

/// Whether an intent is not IN.
fn has_other(intents: &[Intent]) -> bool
    ensures { result ≡ list_any is_other intents.now }
{
    for intent in intents {
        if is_other(*intent) {
            return true;
        }
    }
    false
}

/// Whether these intents may not stand at a dummy argument, or at something else.
fn is_misplaced(is_dummy: bool, is_function: bool, intents: &[Intent]) -> bool
    ensures { result ≡ is_misplaced is_dummy is_function intents.now }
{
    if is_dummy {
        intents.is_empty() || (is_function && has_other(intents))
    } else {
        intents.len() > 0
    }
}

/// What the specification part declares: all but the result that a prefix types, which comes first.
fn specified(outline: &Outline) -> &[Declared]
    ensures { map own_view result.now ≡ specified (scope_view outline.now) }
{
    if outline.is_typed {
        match outline.declared.split_first() {
            Some((_, others)) => others,
            None => &outline.declared,
        }
    } else {
        &outline.declared
    }
}

/// The break of a declaration whose intents may not stand there.
fn misintended(
    is_function: bool,
    dummies: &IndexSet<usize>,
    declaration: &Declared,
) -> Option<Break>
    ensures { Least result (Misintended is_function dummies.now.keys (own_view declaration.now)) }
{
    let is_dummy = is_known(dummies, &declaration.name);
    let is_broken = is_misplaced(is_dummy, is_function, &declaration.intents);
    break_at(is_broken, Rule::N9, &declaration.name)
}

/// The first declaration whose intents may not stand there.
fn first_misintended(
    is_function: bool,
    dummies: &IndexSet<usize>,
    declared: &[Declared],
) -> Option<Break>
    ensures { Least result (Among (λ d. Misintended is_function dummies.now.keys (own_view d)) declared.now) }
{
    first_among(
        declared,
        |declaration| misintended(is_function, dummies, declaration),
    )
}

/// The first declared dummy argument without INTENT, or, in a function, not INTENT(IN); or INTENT on something else.
pub fn first_intent_misplaced(alloc: Global, outline: &Outline) -> Result<Option<Break>, AllocError>
    ensures { IfOk result (λ first. Least first (IntentMisplaced (scope_view outline.now))) }
{
    let dummies = symbols(alloc, &outline.dummies)?;
    let is_function = is_function(outline.kind);
    Ok(first_misintended(is_function, &dummies, specified(outline)))
}
