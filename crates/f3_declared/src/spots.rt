//! Where a declaration stands.

ghost use Rattle.std.specs.Prelude.{◌≡◌, ◌==◌, if◌then◌else◌, ◌+◌, ◌++◌, ℕ, length, filter, map, nat_eq, unwrap_or, OnOk, IfOk};
ghost use Rattle.std.specs.List.{flat_map, list_any};
ghost use Rattle.indexmap.specs.IndexSet.{contains};
ghost use Rattle.indexmap.specs.IndexMap.{get};
ghost use Rattle.f3_tree.specs.Declarations.{specification_view};
ghost use Rattle.f3_scopes.specs.Given.{protects_in};
ghost use Rattle.f3_declared.specs.Standings.{standing};

use crate::attributes::{Standing, again, never};
use f3_tree::declaration::Specification;
use f3_tree::expression::Name;
use indexmap::{IndexMap, IndexSet};
use std::alloc::{AllocError, Global};

/// The names of a header, asked by their numbers.
#[derive(Drop)]
pub struct NameSet<'a> {
    pub names: &'a [Name],
    pub symbols: IndexSet<usize>,
    pub ghost held: { (q : ℕ) → contains nat_eq symbols q ≡ list_any (nat_eq q) (map (λ n. n.symbol) names.now) },
}

/// The names of the PROTECTED statements of a specification part: how often each stands there.
#[derive(Drop)]
pub struct Listings<'a> {
    pub part: &'a [Specification],
    pub standings: IndexMap<usize, Standing>,
    pub ghost counted: { (q : ℕ) → unwrap_or (get nat_eq standings q) (standing 0) ≡ standing (length (filter (nat_eq q) (map (λ n. n.symbol) (flat_map protects_in (map specification_view part.now))))) },
}

/// Where a declaration stands.
#[derive(Clone, Copy)]
pub struct Spot<'a> {
    /// The scope of its unit.
    pub unit: usize,
    pub scope: usize,
    /// Whether it stands in a derived type.
    pub is_type: bool,
    /// Whether it stands in a PURE procedure or a function.
    pub is_pure: bool,
    /// The dummies of its procedure.
    pub dummies: Option<&'a NameSet<'a>>,
    /// The name of its function's result.
    pub result_name: Option<usize>,
    /// The names in PROTECTED statements of its module.
    pub listed: Option<&'a Listings<'a>>,
}

/// The names of a header.
///
/// # Errors
///
/// Where memory runs out.
pub fn name_set<'a>(alloc: Global, names: &'a [Name]) -> Result<NameSet<'a>, AllocError>
    ensures { IfOk result (λ s. s.names.now ≡ names.now) }
{
    let mut symbols = IndexSet::new(alloc);
    for name in names {
        symbols.insert(name.symbol)?;
    }
    Ok(NameSet { names, symbols })
}

fn add_name(standings: &mut IndexMap<usize, Standing>, name: Name) -> Result<(), AllocError>
    ensures { OnOk result ((q n : ℕ) → unwrap_or (get nat_eq standings.old q) (standing 0) ≡ standing n → unwrap_or (get nat_eq standings.new q) (standing 0) ≡ standing (if q == name.symbol then n + 1 else n)) }
{
    let before = standings.get(&name.symbol).copied().unwrap_or(never());
    standings.insert(name.symbol, again(before))?;
    Ok(())
}

fn add_names(standings: &mut IndexMap<usize, Standing>, names: &[Name]) -> Result<(), AllocError>
    ensures { OnOk result ((q n : ℕ) → unwrap_or (get nat_eq standings.old q) (standing 0) ≡ standing n → unwrap_or (get nat_eq standings.new q) (standing 0) ≡ standing (n + length (filter (nat_eq q) (map (λ m. m.symbol) names.now)))) }
{
    for name in names {
        add_name(standings, *name)?;
    }
    Ok(())
}

fn add_listings(
    standings: &mut IndexMap<usize, Standing>,
    specification: &Specification,
) -> Result<(), AllocError>
    ensures { OnOk result ((q n : ℕ) → unwrap_or (get nat_eq standings.old q) (standing 0) ≡ standing n → unwrap_or (get nat_eq standings.new q) (standing 0) ≡ standing (n + length (filter (nat_eq q) (map (λ m. m.symbol) (protects_in (specification_view specification.now)))))) }
{
    match specification {
        Specification::Protected(_, names) => add_names(standings, names),
        Specification::Declaration(_) => Ok(()),
        Specification::Access(_) => Ok(()),
        Specification::Save(_) => Ok(()),
        Specification::Type(_) => Ok(()),
    }
}

/// How often names stand in the PROTECTED statements of a specification part.
///
/// # Errors
///
/// Where memory runs out.
pub fn counted_listings<'a>(
    alloc: Global,
    part: &'a [Specification],
) -> Result<Listings<'a>, AllocError>
    ensures { IfOk result (λ l. l.part.now ≡ part.now) }
{
    let mut standings = IndexMap::new(alloc);
    for specification in part {
        add_listings(&mut standings, specification)?;
    }
    Ok(Listings { part, standings })
}
