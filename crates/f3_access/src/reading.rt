//! What tables say.

ghost use Rattle.std.specs.Prelude.{◌≡◌, ◌<◌, nat_eq, slice_get, IfSome};
ghost use Rattle.std.specs.List.{list_any};
ghost use Rattle.f3_access.specs.Access.{VisibleIsDeclared};
ghost use Rattle.f3_access.specs.Pairs.{pairs_left};
ghost use Rattle.f3_access.specs.Parts.{host_in, lookup_in, is_nothing, holder_at};
ghost use Rattle.f3_access.specs.Tables.{own_of, exports_of, used_of, visible_of, lookup_of, private_of, module_of, host_of};

use crate::pairs::VisiblePairs;
use crate::table::Tables;
use f3_lookups::lookup::{Lookup, Visible};
use f3_selecting::choosing;

/// What a scope has of its own, each entity once under each name: what its USE statements bring, in the order of the
/// modules' first USE and of what they export, then what it declares (own rule). In a unit that is all that is visible.
/// Where there is no scope of this number it is empty.
pub fn own(tables: &Tables, scope: usize) -> &[Visible]
    ensures { result.now ≡ own_of tables.now scope }
{
    match tables.scopes.get(scope) {
        Some(table) => table.own.as_slice(),
        None => &[],
    }
}

/// What the module of this number exports, in the order of `own`. A scope that is no module exports nothing.
pub fn exports(tables: &Tables, scope: usize) -> &[Visible]
    ensures { result.now ≡ exports_of tables.now scope }
{
    match tables.scopes.get(scope) {
        Some(table) => &table.exports,
        None => &[],
    }
}

/// Whether a USE of the scope brings an entity under this name.
pub fn used(tables: &Tables, scope: usize, symbol: usize) -> bool
    ensures { result ≡ list_any (nat_eq symbol) (used_of tables.now scope) }
{
    match tables.scopes.get(scope) {
        Some(table) => table.used.contains(&symbol),
        None => false,
    }
}

/// Whether the name is private in the scope of this number: a PRIVATE names it, or no access does and there is a PRIVATE
/// without a list.
pub fn is_private(tables: &Tables, scope: usize, symbol: usize) -> bool
    ensures { result ≡ private_of tables.now scope symbol }
{
    match tables.accesses.get(scope) {
        Some(accesses) => choosing::is_private(accesses, symbol),
        None => false,
    }
}

/// The number of the module of this name among the scopes.
pub fn module(tables: &Tables, symbol: usize) -> Option<usize>
    ensures { result ≡ module_of tables.now symbol }
{
    tables.modules.get(&symbol).copied()
}

/// What the scope of this number has of its own under a name.
pub fn own_lookup(tables: &Tables, scope: usize, symbol: usize) -> Lookup
    ensures { result ≡ lookup_in (slice_get tables.now.scopes.items scope) symbol }
{
    match tables.scopes.get(scope) {
        Some(table) => table
            .lookups
            .get(&symbol)
            .copied()
            .unwrap_or(Lookup::Nothing),
        None => Lookup::Nothing,
    }
}

fn host_of(tables: &Tables, scope: usize) -> Option<usize>
    ensures { result ≡ host_in (slice_get tables.now.scopes.items scope) }
{
    match tables.scopes.get(scope) {
        Some(table) => table.host,
        None => None,
    }
}

/// The number of the scope around the one of this number: of a procedure its module, of a construct the unit, procedure or
/// construct that it stands in. A unit has none.
pub fn host(tables: &Tables, scope: usize) -> Option<usize>
    ensures host { result ≡ host_of tables.now scope }
    ensures before { IfSome result (λ h. h < scope) }
{
    host_of(tables, scope)
}

/// The number of the nearest scope, from this one on outward, that has something of its own under a name.
pub(crate) fn holder(tables: &Tables, scope: usize, symbol: usize) -> Option<usize>
    ensures { result ≡ holder_at tables.now.scopes.items scope symbol }
{
    let mut around = Some(scope);
    while let Some(number) = around {
        if !is_nothing(own_lookup(tables, number, symbol)) {
            return Some(number);
        }
        around = host(tables, number);
    }
    None
}

/// What is visible in a scope under a name, by the number of the name among the program's.
///
/// It takes no memory, and looks the name up in hashed tables: in that of the scope, and then outward in those around it up
/// to the first that has the name. Where there is no scope of this number nothing is visible.
pub fn lookup(tables: &Tables, scope: usize, symbol: usize) -> Lookup
    ensures { result ≡ lookup_of tables.now scope symbol }
{
    let mut around = Some(scope);
    while let Some(number) = around {
        let found = own_lookup(tables, number, symbol);
        if !is_nothing(found) {
            return found;
        }
        around = host(tables, number);
    }
    Lookup::Nothing
}

/// Whether nothing is found.
pub fn is_nothing(lookup: Lookup) -> bool
    ensures { result ≡ is_nothing lookup }
{
    match lookup {
        Lookup::Nothing => true,
        Lookup::One(_) => false,
        Lookup::Several => false,
    }
}

/// What is visible in a scope, each entity once under each name: its own, then what is visible around it under names that
/// none of its own has, in their order (own rule). It takes no memory. Where there is no scope of this number nothing is
/// visible.
pub fn visible(tables: &Tables, scope: usize) -> VisiblePairs<'_>
    ensures { pairs_left result ≡ visible_of tables.now scope }
{
    VisiblePairs::new(tables, scope)
}

/// What is visible under a name is a declaration of some scope, by its number among the declarations of all scopes.
pub fn visible_is_declared()
    ensures { VisibleIsDeclared }
{}
