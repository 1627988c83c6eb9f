//! The entities of a program.

ghost use Rattle.std.specs.Prelude.{◌≡◌, [], ◌++◌, OnOk, IfOk, map, nat_eq, slice_get};
ghost use Rattle.indexmap.specs.IndexSet.{insert_all};
ghost use Rattle.f3_scopes.specs.Outlines.{own_view, scope_view};
ghost use Rattle.f3_names.specs.Inner.Making.{entity_by};
ghost use Rattle.f3_names.specs.Entities.{name_of, entity_of, described};
ghost use Rattle.f3_names.specs.Holders.{unit_of};
ghost use Rattle.f3_access.specs.Hosts.{HostsBefore, host_of};

use crate::entity::Entity;
use f3_scopes::outline::{Declared, Outline};
use f3_tree::expression::Name;
use indexmap::IndexSet;
use std::alloc::{AllocError, Global};

/// The numbers of these names, each once.
fn symbols_of(alloc: Global, names: &[Name]) -> Result<IndexSet<usize>, AllocError>
    ensures { IfOk result (λ s. s.keys ≡ insert_all nat_eq [] (map (λ n. n.symbol) names.now)) }
{
    let mut symbols = IndexSet::new(alloc);
    for name in names {
        symbols.insert(name.symbol)?;
    }
    Ok(symbols)
}

/// The number of the scope around the one of this number.
fn host_of(outlines: &[Outline], number: usize) -> Option<usize>
    ensures { result ≡ host_of (map scope_view outlines.now) number }
{
    match outlines.get(number) {
        Some(outline) => outline.host,
        None => None,
    }
}

/// The number of the scope of the unit that holds a scope.
fn unit_of(outlines: &[Outline], number: usize) -> usize
    requires { HostsBefore (map scope_view outlines.now) }
    ensures { result ≡ unit_of (map scope_view outlines.now) number }
{
    let mut unit = number;
    while let Some(host) = host_of(outlines, unit) {
        unit = host;
    }
    unit
}

/// The name of the scope of this number.
fn name_of(outlines: &[Outline], number: usize) -> usize
    ensures { result ≡ name_of (slice_get (map scope_view outlines.now) number) }
{
    match outlines.get(number) {
        Some(outline) => outline.name.symbol,
        None => 0,
    }
}

/// The entity of a declaration, where the PROTECTED statements of its scope name these.
fn entity_by(
    number: usize,
    unit: usize,
    home: usize,
    protects: &IndexSet<usize>,
    declaration: &Declared,
) -> Entity
    ensures { result ≡ entity_by number unit home protects.now.keys (own_view declaration.now) }
{
    Entity {
        place: declaration.name.place,
        kind: declaration.kind,
        scope: number,
        unit,
        home,
        original: declaration.name.symbol,
        is_protected: declaration.is_protected || protects.contains(&declaration.name.symbol),
    }
}

fn add_declared(
    entities: &mut Vec<Entity>,
    number: usize,
    unit: usize,
    home: usize,
    protects: &IndexSet<usize>,
    declared: &[Declared],
) -> Result<(), AllocError>
    ensures { OnOk result (entities.new.items ≡ entities.old.items ++ map (entity_by number unit home protects.now.keys) (map own_view declared.now)) }
{
    for declaration in declared {
        entities.push(entity_by(number, unit, home, protects, declaration))?;
    }
    Ok(())
}

/// Adds what the scope of this number declares.
#[tactic(auto, using(crate::proofs::Protecting::entities_by))]
fn add_scope(
    alloc: Global,
    entities: &mut Vec<Entity>,
    outlines: &[Outline],
    number: usize,
    outline: &Outline,
) -> Result<(), AllocError>
    requires { HostsBefore (map scope_view outlines.now) }
    ensures { OnOk result (entities.new.items ≡ entities.old.items ++ map (entity_of (map scope_view outlines.now) number (scope_view outline.now)) (map own_view outline.now.declared.items)) }
{
    let unit = unit_of(outlines, number);
    let home = name_of(outlines, unit);
    let protects = symbols_of(alloc, &outline.protects)?;
    add_declared(entities, number, unit, home, &protects, &outline.declared)
}

/// The entities that these scopes declare, scope by scope, each scope's in the order of their places.
pub fn described(alloc: Global, outlines: &[Outline]) -> Result<Vec<Entity>, AllocError>
    requires { HostsBefore (map scope_view outlines.now) }
    ensures { IfOk result (λ v. v.items ≡ described (map scope_view outlines.now)) }
{
    let mut entities = Vec::new(alloc);
    for (number, outline) in outlines.iter().enumerate() {
        add_scope(alloc, &mut entities, outlines, number, outline)?;
    }
    Ok(entities)
}
