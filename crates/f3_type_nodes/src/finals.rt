//! Final subroutines (4.5.5).

ghost use Rattle.std.specs.Prelude.{◌≡◌, ◌++◌, ◌∷◌, [], option_map, IfOk, OnOk};
ghost use Rattle.f3_kinds.specs.Things.{map_or};
ghost use Rattle.f3_finals.specs.Candidates.{rank_for};
ghost use Rattle.f3_finals.specs.Inner.Looked.{rank_at};
ghost use Rattle.f3_type_nodes.specs.Inner.Finals.{final_of, final_found, finals_by};

use f3_access::lookup;
use f3_declaration_nodes::whole::Whole;
use f3_finals::candidate::Candidate;
use f3_lookups::lookup::Lookup;
use f3_part_rules::finalizers::Finalizers;
use f3_program::declarations::Final;
use f3_tree::expression::Name;
use std::alloc::{AllocError, Global};

/// A procedure as a final subroutine of a type, where it can be one.
fn final_by(
    whole: Whole<'_>,
    data_type: usize,
    candidate: Option<Candidate>,
    entity: usize,
) -> Option<Final>
    ensures { result ≡ option_map (final_of whole.entry entity) (rank_for data_type candidate) }
{
    match candidate {
        Some(candidate) => {
            if candidate.data_type == data_type {
                return Some(Final {
                    rank: candidate.rank,
                    procedure: whole.numbers.procedure(entity),
                });
            }
            None
        }
        None => None,
    }
}

/// The same of an entity, which may be a procedure of the type's module.
fn final_at(
    whole: Whole<'_>,
    finalizers: Finalizers<'_>,
    data_type: usize,
    entity: usize,
) -> Option<Final>
    ensures { result ≡ option_map (final_of whole.entry entity) (rank_at finalizers.entry.first finalizers.entry.candidates.now data_type entity) }
{
    if entity < finalizers.first {
        return None;
    }
    match finalizers.candidates.get(entity - finalizers.first) {
        Some(candidate) => final_by(whole, data_type, *candidate, entity),
        None => None,
    }
}

fn final_found(
    whole: Whole<'_>,
    finalizers: Finalizers<'_>,
    data_type: usize,
    found: Lookup,
) -> Option<Final>
    ensures { result ≡ final_found whole.entry finalizers.entry data_type found }
{
    match found {
        Lookup::One(entity) => final_at(whole, finalizers, data_type, entity),
        Lookup::Nothing => None,
        Lookup::Several => None,
    }
}

fn add(found: &mut Vec<Final>, last: Option<Final>) -> Result<(), AllocError>
    ensures { OnOk result (found.new.items ≡ found.old.items ++ map_or [] (λ f. f ∷ []) last) }
{
    match last {
        Some(last) => {
            found.push(last)?;
            Ok(())
        }
        None => Ok(()),
    }
}

/// The final subroutines of a type, in the order of their names in its FINAL statements (4.5.5). `scope` is the scope of the type's
/// module, `data_type` the type's entity.
///
/// # Errors
///
/// Where memory runs out.
pub fn finals(
    alloc: Global,
    whole: Whole<'_>,
    finalizers: Finalizers<'_>,
    scope: usize,
    data_type: usize,
    list: &[Name],
) -> Result<Vec<Final>, AllocError>
    ensures { IfOk result (λ v. v.items ≡ finals_by whole.entry finalizers.entry scope data_type list.now) }
{
    let mut found = Vec::new(alloc);
    for name in list {
        let entity = lookup(whole.known.tables, scope, name.symbol);
        let last = final_found(whole, finalizers, data_type, entity);
        add(&mut found, last)?;
    }
    Ok(found)
}
