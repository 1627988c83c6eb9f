//! What a name is where its declaration stands.

ghost use Rattle.std.specs.Prelude.{◌≡◌, ℕ, length, filter, nat_eq};
ghost use Rattle.std.specs.List.{list_any};
ghost use Rattle.f3_type_rules.specs.Scene.{Scene};
ghost use Rattle.f3_declared.specs.Standings.{standing};
ghost use Rattle.f3_declared.specs.Spots.{spot_in, symbols_of, listed_of};

use crate::attributes::{Standing, never};
use crate::spots::{Listings, NameSet, Spot};

/// Whether a name is one of a header.
pub fn has_name(set: &NameSet<'_>, symbol: usize) -> bool
    ensures { result ≡ list_any (nat_eq symbol) (symbols_of set.now) }
{
    set.symbols.contains(&symbol)
}

/// How often a name stands in PROTECTED statements.
pub fn listed_standing(listings: &Listings<'_>, symbol: usize) -> Standing
    ensures { result ≡ standing (length (filter (nat_eq symbol) (listed_of listings.now))) }
{
    listings.standings.get(&symbol).copied().unwrap_or(never())
}

/// Whether a name is a dummy where it stands.
pub fn is_dummy(spot: &Spot<'_>, symbol: usize) -> bool
    ensures { (scene : Scene) → result ≡ list_any (nat_eq symbol) (spot_in scene spot.now).dummies }
{
    match spot.dummies {
        Some(set) => has_name(set, symbol),
        None => false,
    }
}

/// Whether a name is that of the function's result.
pub fn is_result(spot: &Spot<'_>, symbol: usize) -> bool
    ensures { (scene : Scene) → result ≡ list_any (nat_eq symbol) (spot_in scene spot.now).results }
{
    match spot.result_name {
        Some(outcome) => symbol == outcome,
        None => false,
    }
}

/// How often a name stands in PROTECTED statements of its module.
pub fn listings_of(spot: &Spot<'_>, symbol: usize) -> Standing
    ensures { (scene : Scene) → result ≡ standing (length (filter (nat_eq symbol) (spot_in scene spot.now).listed)) }
{
    match spot.listed {
        Some(listings) => listed_standing(listings, symbol),
        None => never(),
    }
}
