//! What the USE statements of a scope bring, from what modules export.

ghost use Rattle.std.specs.Prelude.{◌≡◌, ◌<◌, [], OnOk, IfOk, IfSome, map, length, nat_eq};
ghost use Rattle.std.specs.List.{All, flat_map};
ghost use Rattle.std.specs.List.Sorted.{IsNonDecreasing};
ghost use Rattle.indexmap.specs.IndexSet.{insert_all};
ghost use Rattle.indexmap.specs.IndexMap.{get};
ghost use Rattle.f3_scopes.specs.Outlines.{using_view};
ghost use Rattle.f3_access.specs.Listing.{same_pair, pair, exports_of, brought};
ghost use Rattle.f3_access.specs.Inner.Calling.{called_by, OnlyNamed};
ghost use Rattle.f3_access.specs.Parts.{exports_at, HasPlaces};
ghost use Rattle.f3_access.specs.Inner.Walk.{unseen, RestIsSilent};

use crate::table::ScopeTable;
use f3_lookups::lookup::Visible;
use f3_scopes::outline::UseOutline;
use f3_selecting::places::sorted_places;
use f3_selecting::selecting::{Selections, kept_by, locals_by, names_of, selections_of};
use indexmap::{IndexMap, IndexSet};
use std::alloc::{AllocError, Global};

/// Adds an entity under these names.
fn add_locals(
    table: &mut IndexSet<Visible>,
    locals: &[usize],
    entity: usize,
) -> Result<(), AllocError>
    ensures { OnOk result (table.new.keys ≡ insert_all same_pair table.old.keys (map (λ n. pair n entity) locals.now)) }
{
    for local in locals {
        table.insert(Visible {
            symbol: *local,
            entity,
        })?;
    }
    Ok(())
}

/// Adds the local names of one export.
#[tactic(auto, using(f3_selecting::proofs::Steps::insert_more))]
fn add_called(
    table: &mut IndexSet<Visible>,
    selections: &Selections,
    from: usize,
    export: Visible,
) -> Result<(), AllocError>
    ensures { OnOk result (table.new.keys ≡ insert_all same_pair table.old.keys (called_by selections.now from export)) }
{
    if kept_by(selections, from, export.symbol) {
        table.insert(export)?;
    }
    add_locals(
        table,
        locals_by(selections, from, export.symbol),
        export.entity,
    )
}

/// Adds the local names of the exports of one module.
#[tactic(auto, using(f3_selecting::proofs::Steps::insert_more))]
fn add_module(
    table: &mut IndexSet<Visible>,
    selections: &Selections,
    from: usize,
    exports: &[Visible],
) -> Result<(), AllocError>
    ensures { OnOk result (table.new.keys ≡ insert_all same_pair table.old.keys (flat_map (called_by selections.now from) exports.now)) }
{
    for export in exports {
        add_called(table, selections, from, *export)?;
    }
    Ok(())
}

/// What stands at a place, if it is not before the next.
fn unseen(exports: &[Visible], place: usize, next: usize) -> Option<Visible>
    ensures value { result ≡ unseen exports.now place next }
    ensures room { IfSome result (λ e. place < length exports.now) }
{
    if place < next {
        return None;
    }
    exports.get(place).copied()
}

/// Adds the local names of the exports of one module, of which only those at these places have any.
#[tactic(auto, using(f3_selecting::proofs::Steps::insert_more))]
fn add_places(
    table: &mut IndexSet<Visible>,
    selections: &Selections,
    from: usize,
    exports: &[Visible],
    places: &[usize],
) -> Result<(), AllocError>
    requires order { IsNonDecreasing places.now }
    requires silent { RestIsSilent (called_by selections.now from) exports.now 0 places.now 0 }
    ensures { OnOk result (table.new.keys ≡ insert_all same_pair table.old.keys (flat_map (called_by selections.now from) exports.now)) }
{
    let mut next = 0;
    for place in places {
        if let Some(export) = unseen(exports, *place, next) {
            add_called(table, selections, from, export)?;
            next = *place + 1;
        }
    }
    Ok(())
}

/// Adds the local names of the exports of one module. Where all its USE statements have ONLY, just the names that they
/// name are looked up.
fn add_source(
    alloc: Global,
    table: &mut IndexSet<Visible>,
    selections: &Selections,
    from: usize,
    source: &ScopeTable,
) -> Result<(), AllocError>
    requires only { OnlyNamed selections.now }
    requires places { HasPlaces source.now }
    ensures { OnOk result (table.new.keys ≡ insert_all same_pair table.old.keys (flat_map (called_by selections.now from) source.now.exports.items)) }
{
    if selections.whole.contains(&from) {
        return add_module(table, selections, from, &source.exports);
    }
    let places = sorted_places(alloc, &source.places, names_of(selections, from))?;
    add_places(table, selections, from, &source.exports, &places)
}

/// Adds the local names of what the module of this name exports.
fn add_used(
    alloc: Global,
    table: &mut IndexSet<Visible>,
    selections: &Selections,
    symbol: usize,
    modules: &IndexMap<usize, usize>,
    tables: &[ScopeTable],
) -> Result<(), AllocError>
    requires only { OnlyNamed selections.now }
    requires places { All HasPlaces tables.now }
    ensures { OnOk result (table.new.keys ≡ insert_all same_pair table.old.keys (flat_map (called_by selections.now symbol) (exports_of (exports_at tables.now) (get nat_eq modules.now symbol)))) }
{
    match modules.get(&symbol) {
        Some(number) => match tables.get(*number) {
            Some(source) => add_source(alloc, table, selections, symbol, source),
            None => Ok(()),
        },
        None => Ok(()),
    }
}

/// What these selections bring, from what the modules export.
#[tactic(auto, using(f3_selecting::proofs::Steps::insert_more))]
fn selected_by(
    alloc: Global,
    selections: &Selections,
    modules: &IndexMap<usize, usize>,
    tables: &[ScopeTable],
) -> Result<IndexSet<Visible>, AllocError>
    requires only { OnlyNamed selections.now }
    requires places { All HasPlaces tables.now }
    ensures { IfOk result (λ t. t.keys ≡ insert_all same_pair [] (flat_map (λ m. flat_map (called_by selections.now m) (exports_of (exports_at tables.now) (get nat_eq modules.now m))) selections.now.modules.keys)) }
{
    let mut table = IndexSet::new(alloc);
    for symbol in selections.modules.as_slice() {
        add_used(alloc, &mut table, selections, *symbol, modules, tables)?;
    }
    Ok(table)
}

/// What the USE statements of a scope bring, from what the modules export.
pub fn used_by(
    alloc: Global,
    uses: &[UseOutline],
    modules: &IndexMap<usize, usize>,
    tables: &[ScopeTable],
) -> Result<IndexSet<Visible>, AllocError>
    requires { All HasPlaces tables.now }
    ensures { IfOk result (λ t. t.keys ≡ insert_all same_pair [] (brought (map using_view uses.now) (exports_at tables.now) (get nat_eq modules.now))) }
{
    let selections = selections_of(alloc, uses)?;
    selected_by(alloc, &selections, modules, tables)
}
