//! What the rules on definitions ask of what the scopes declare (5.1.2.7, 5.2.10, 16.5).

ghost use Rattle.std.specs.Prelude.{◌≡◌, ◌++◌, ℕ, nat_eq, true, if◌then◌else◌, None, map, IfOk, OnOk};
ghost use Rattle.std.specs.List.{list_any};
ghost use Rattle.indexmap.specs.IndexSet.{contains};
ghost use Rattle.f3_scopes.specs.Outlines.{own_view, scope_view};
ghost use Rattle.f3_type_rules.specs.Names.{last_of};
ghost use Rattle.f3_type_rules.specs.Scene.{holder, holders_from};

use f3_scopes::outline::{Declared, Outline};
use f3_tree::declaration::Intent;
use f3_tree::expression::Name;
use f3_type_rules::definition::Holder;
use indexmap::IndexSet;
use std::alloc::{AllocError, Global};

/// The names of PROTECTED statements.
fn protected_names(alloc: Global, list: &[Name]) -> Result<IndexSet<usize>, AllocError>
    ensures { IfOk result (λ s. (k : ℕ) → contains nat_eq s k ≡ list_any (λ n. nat_eq n.symbol k) list.now) }
{
    let mut found = IndexSet::new(alloc);
    for name in list {
        found.insert(name.symbol)?;
    }
    Ok(found)
}

fn last_intent(list: &[Intent]) -> Option<Intent>
    ensures { result ≡ last_of None list.now }
{
    let mut last = None;
    for intent in list {
        last = Some(*intent);
    }
    last
}

fn is_protected(protects: &IndexSet<usize>, declared: &Declared) -> bool
    ensures { result ≡ (if declared.now.is_protected then true else contains nat_eq protects.now declared.now.name.symbol) }
{
    if declared.is_protected {
        return true;
    }
    protects.contains(&declared.name.symbol)
}

/// What a scope declares.
fn add_scope(
    alloc: Global,
    found: &mut Vec<Holder>,
    number: usize,
    outline: &Outline,
) -> Result<(), AllocError>
    ensures { OnOk result (found.new.items ≡ found.old.items ++ map (holder number (scope_view outline.now)) (scope_view outline.now).declared) }
{
    let protects = protected_names(alloc, &outline.protects)?;
    let unit = outline.host.unwrap_or(number);
    for declared in &outline.declared {
        found.push(Holder {
            unit,
            scope: number,
            is_protected: is_protected(&protects, declared),
            intent: last_intent(&declared.intents),
        })?;
    }
    Ok(())
}

/// What the rules on definitions ask of each entity of a program, by its number.
pub fn holders(alloc: Global, outlines: &[Outline]) -> Result<Vec<Holder>, AllocError>
    ensures { IfOk result (λ v. v.items ≡ holders_from 0 (map scope_view outlines.now)) }
{
    let mut found = Vec::new(alloc);
    for (number, outline) in outlines.iter().enumerate() {
        add_scope(alloc, &mut found, number, outline)?;
    }
    Ok(found)
}
