//! The table of one scope, from what modules export.

ghost use Rattle.std.specs.Prelude.{◌≡◌, ◌++◌, [], OnOk, IfOk, map, filter, not, nat_eq, ℕ, if◌then◌else◌};
ghost use Rattle.std.specs.List.{All};
ghost use Rattle.indexmap.specs.IndexSet.{insert_all};
ghost use Rattle.indexmap.specs.IndexMap.{get};
ghost use Rattle.f3_scopes.specs.Outlines.{using_view, scope_view};
ghost use Rattle.f3_scopes.specs.Kinds.{is_module};
ghost use Rattle.f3_lookups.specs.declared.lookup.Lookup.TheVariants.{Nothing};
ghost use Rattle.f3_access.specs.Listing.{same_pair, brought};
ghost use Rattle.f3_selecting.specs.Private.{is_private, makes_private};
ghost use Rattle.f3_selecting.specs.Places.{places_in};
ghost use Rattle.f3_access.specs.Parts.{note, meaning, found, exports_at, places_from, HasPlaces, IsTable};

use crate::bringing::used_by;
use crate::exporting::exported;
use crate::table::ScopeTable;
use f3_lookups::lookup::{Lookup, Visible};
use f3_scopes::outline::{Outline, ScopeKind, UseOutline};
use f3_selecting::choosing::Accesses;
use f3_selecting::places::add_place;
use indexmap::{IndexMap, IndexSet};
use std::alloc::{AllocError, Global};

fn note(before: Lookup, entity: usize) -> Lookup
    ensures { result ≡ note before entity }
{
    match before {
        Lookup::Nothing => Lookup::One(entity),
        Lookup::One(old) => {
            if old == entity {
                Lookup::One(old)
            } else {
                Lookup::Several
            }
        }
        Lookup::Several => Lookup::Several,
    }
}

/// What is found under each name.
fn lookups_of(alloc: Global, own: &[Visible]) -> Result<IndexMap<usize, Lookup>, AllocError>
    ensures { IfOk result (λ m. (n : ℕ) → found (get nat_eq m n) ≡ meaning Nothing own.now n) }
{
    let mut lookups = IndexMap::new(alloc);
    for pair in own {
        let before = lookups
            .get(&pair.symbol)
            .copied()
            .unwrap_or(Lookup::Nothing);
        lookups.insert(pair.symbol, note(before, pair.entity))?;
    }
    Ok(lookups)
}

/// The names of these pairs.
fn symbols_of(alloc: Global, pairs: &[Visible]) -> Result<IndexSet<usize>, AllocError>
    ensures { IfOk result (λ s. s.keys ≡ insert_all nat_eq [] (map (λ v. v.symbol) pairs.now)) }
{
    let mut symbols = IndexSet::new(alloc);
    for pair in pairs {
        symbols.insert(pair.symbol)?;
    }
    Ok(symbols)
}

/// Adds pairs that are not there yet.
fn add_pairs(table: &mut IndexSet<Visible>, pairs: &[Visible]) -> Result<(), AllocError>
    ensures { OnOk result (table.new.keys ≡ insert_all same_pair table.old.keys pairs.now) }
{
    for pair in pairs {
        table.insert(*pair)?;
    }
    Ok(())
}

/// The places of each name among these pairs, in order.
fn places_of(alloc: Global, pairs: &[Visible]) -> Result<IndexMap<usize, Vec<usize>>, AllocError>
    ensures { IfOk result (λ p. (n : ℕ) → places_in (get nat_eq p n) ≡ places_from 0 pairs.now n) }
{
    let mut places = IndexMap::new(alloc);
    for (place, pair) in pairs.iter().enumerate() {
        add_place(alloc, &mut places, pair.symbol, place)?;
    }
    Ok(places)
}

/// What a scope has of its own, and the names that a USE brings.
#[derive(Drop)]
struct OwnNames {
    own: IndexSet<Visible>,
    used: IndexSet<usize>,
}

/// What a scope that declares these pairs has of its own, from what the modules export.
#[tactic(auto, using(f3_selecting::proofs::Steps::insert_more))]
fn own_names(
    alloc: Global,
    uses: &[UseOutline],
    declared: &[Visible],
    modules: &IndexMap<usize, usize>,
    tables: &[ScopeTable],
) -> Result<OwnNames, AllocError>
    requires { All HasPlaces tables.now }
    ensures own { IfOk result (λ n. n.own.keys ≡ insert_all same_pair [] (brought (map using_view uses.now) (exports_at tables.now) (get nat_eq modules.now) ++ declared.now)) }
    ensures used { IfOk result (λ n. n.used.keys ≡ insert_all nat_eq [] (map (λ v. v.symbol) (insert_all same_pair [] (brought (map using_view uses.now) (exports_at tables.now) (get nat_eq modules.now))))) }
{
    let mut own = used_by(alloc, uses, modules, tables)?;
    let used = symbols_of(alloc, own.as_slice())?;
    add_pairs(&mut own, declared)?;
    Ok(OwnNames { own, used })
}

/// What a scope exports, and the places of each name in it.
#[derive(Drop)]
struct Exports {
    pairs: Vec<Visible>,
    places: IndexMap<usize, Vec<usize>>,
}

/// What a scope that has these pairs of its own exports.
fn exports_of(
    alloc: Global,
    kind: ScopeKind,
    accesses: &Accesses,
    own: &[Visible],
) -> Result<Exports, AllocError>
    ensures pairs { IfOk result (λ e. e.pairs.items ≡ (if is_module kind then filter (λ w. not (makes_private accesses.now w.symbol)) own.now else [])) }
    ensures places { IfOk result (λ e. (n : ℕ) → places_in (get nat_eq e.places n) ≡ places_from 0 e.pairs.items n) }
{
    let pairs = exported(alloc, kind, accesses, own)?;
    let places = places_of(alloc, &pairs)?;
    Ok(Exports { pairs, places })
}

/// The table of a scope whose declarations are these pairs, from what the modules export.
pub fn table_of(
    alloc: Global,
    outline: &Outline,
    declared: &[Visible],
    accesses: &Accesses,
    modules: &IndexMap<usize, usize>,
    tables: &[ScopeTable],
) -> Result<ScopeTable, AllocError>
    requires places { All HasPlaces tables.now }
    requires accesses { makes_private accesses.now ≡ is_private (scope_view outline.now) }
    ensures { IfOk result (λ t. IsTable (brought (map using_view outline.now.uses.items) (exports_at tables.now) (get nat_eq modules.now)) declared.now (scope_view outline.now) t) }
{
    let names = own_names(alloc, &outline.uses, declared, modules, tables)?;
    let lookups = lookups_of(alloc, names.own.as_slice())?;
    let exports = exports_of(alloc, outline.kind, accesses, names.own.as_slice())?;
    Ok(ScopeTable {
        own: names.own,
        used: names.used,
        lookups,
        exports: exports.pairs,
        places: exports.places,
        host: outline.host,
    })
}
