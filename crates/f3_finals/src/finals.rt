//! The names in FINAL.

ghost use Rattle.std.specs.Prelude.{◌≡◌, ◌&&◌, not, nat_eq, ℕ, List, [], map, OnOk};
ghost use Rattle.std.specs.List.{list_any};
ghost use Rattle.f3_access.specs.Tables.{lookup_of};
ghost use Rattle.f3_kinds.specs.Calls.{is_new, added};
ghost use Rattle.f3_scopes.specs.Outlines.{Scope};
ghost use Rattle.f3_tree.specs.Tree.{ProcedureTree};
ghost use Rattle.f3_type_rules.specs.Finals.{final_rank, final_rows};
ghost use Rattle.f3_type_rules.specs.Members.{members_from};
ghost use Rattle.f3_type_rules.specs.Names.{Names};
ghost use Rattle.f3_typed_parts.specs.Noted.{noted};
ghost use Rattle.f3_finals.specs.Candidates.{rank_for, AreCandidates};
ghost use Rattle.f3_finals.specs.Inner.Looked.{rank_at, rank_found};

use crate::candidate::Candidate;
use f3_access::lookup;
use f3_access::table::Tables;
use f3_lookups::lookup::Lookup;
use f3_rules::breaks::Break;
use f3_rules::rule::Rule;
use f3_tree::expression::Name;
use f3_typed_parts::noted::{at_name, unless};
use indexmap::IndexSet;
use std::alloc::{AllocError, Global};

fn rank_for(data_type: usize, candidate: Option<Candidate>) -> Option<usize>
    ensures { result ≡ rank_for data_type candidate }
{
    match candidate {
        Some(candidate) => {
            if candidate.data_type == data_type {
                return Some(candidate.rank);
            }
            None
        }
        None => None,
    }
}

fn rank_at(
    first_procedure: usize,
    candidates: &[Option<Candidate>],
    data_type: usize,
    entity: usize,
) -> Option<usize>
    ensures { result ≡ rank_at first_procedure candidates.now data_type entity }
{
    if entity < first_procedure {
        return None;
    }
    match candidates.get(entity - first_procedure) {
        Some(candidate) => rank_for(data_type, *candidate),
        None => None,
    }
}

/// The rank of the objects of a type that what has a name could finalize.
fn rank_found(
    first_procedure: usize,
    candidates: &[Option<Candidate>],
    data_type: usize,
    found: Lookup,
) -> Option<usize>
    ensures { result ≡ rank_found first_procedure candidates.now data_type found }
{
    match found {
        Lookup::One(entity) => rank_at(first_procedure, candidates, data_type, entity),
        Lookup::Nothing => None,
        Lookup::Several => None,
    }
}

fn is_new(ranks: &IndexSet<usize>, rank: Option<usize>) -> bool
    ensures { result ≡ is_new ranks.now.keys rank }
{
    match rank {
        Some(rank) => !ranks.contains(&rank),
        None => false,
    }
}

fn is_right(
    seen: &IndexSet<usize>,
    ranks: &IndexSet<usize>,
    symbol: usize,
    rank: Option<usize>,
) -> bool
    ensures { result ≡ not (list_any (nat_eq symbol) seen.now.keys) && is_new ranks.now.keys rank }
{
    if seen.contains(&symbol) {
        return false;
    }
    is_new(ranks, rank)
}

fn add(ranks: &mut IndexSet<usize>, rank: Option<usize>) -> Result<(), AllocError>
    ensures { OnOk result (ranks.new.keys ≡ added ranks.old.keys rank) }
{
    match rank {
        Some(rank) => {
            ranks.insert(rank)?;
            Ok(())
        }
        None => Ok(()),
    }
}

/// Notes the names in the FINAL statements of a type that break rule T4: a name that is no final subroutine of the type, that
/// stands there twice, or that is the second of a rank (4.5.5). `scope` is the scope of the type's module, `first_procedure`
/// the entity of the first of its procedures, `candidates` what each of these could finalize, `data_type` the type's entity.
///
/// # Errors
///
/// Where memory runs out.
pub fn finals(
    alloc: Global,
    tables: &Tables,
    scope: usize,
    first_procedure: usize,
    candidates: &[Option<Candidate>],
    data_type: usize,
    first: &mut Option<Break>,
    list: &[Name],
) -> Result<(), AllocError>
    ensures { OnOk result ((names : Names) → names.look ≡ lookup_of tables.now → (scopes : List Scope) → (start : ℕ) → (procedures : List ProcedureTree) → AreCandidates names (members_from scopes first_procedure start procedures) candidates.now → first.new ≡ noted first.old (final_rows (final_rank names scope (members_from scopes first_procedure start procedures) data_type) [] [] list.now)) }
{
    let mut seen = IndexSet::new(alloc);
    let mut ranks = IndexSet::new(alloc);
    for name in list {
        let found = lookup(tables, scope, name.symbol);
        let rank = rank_found(first_procedure, candidates, data_type, found);
        let right = is_right(&seen, &ranks, name.symbol, rank);
        unless(first, right, at_name(5, Rule::T4, *name));
        seen.insert(name.symbol)?;
        add(&mut ranks, rank)?;
    }
    Ok(())
}
