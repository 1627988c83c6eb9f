//! References to procedures, and structure constructors.

ghost use Rattle.std.specs.Prelude.{◌≡◌, ℕ, ◌||◌, ◌&&◌, not, List, map, IfOk, OnOk, length, nat_eq, Some, None, if◌then◌else◌};
ghost use Rattle.std.specs.List.{list_all};
ghost use Rattle.f3_kinds.specs.Rows.{has_type};
ghost use Rattle.f3_kinds.specs.Things.{at_place_of};
ghost use Rattle.f3_kinds.specs.Designators.{is_typed};
ghost use Rattle.f3_kinds.specs.Calls.{given_place, is_keyed, has_fits_dummy, within_count, place_for, added, fits_at, is_free, argument_fits, argument_rows, all_fit, matched, match_next, no_match, Matched, is_complete, are_right, function_rows, call_rows, result_has, function_has};
ghost use Rattle.f3_typed_parts.specs.Noted.{noted};

use f3_kinds::said::{Form, Given, Has};
use f3_kinds::things::Dummy;
use f3_kinds::types::Object;
use f3_places::source::Place;
use f3_rules::breaks::Break;
use f3_rules::rule::Rule;
use f3_tree::expression::Name;
use f3_typed_parts::designators::{Judged, all_typed};
use f3_typed_parts::noted::{at_place, unless};
use f3_typed_parts::operands::same_known;
use f3_typed_parts::rows::has_type;
use indexmap::{IndexMap, IndexSet};
use std::alloc::{AllocError, Global};

/// The first token of what is given.
pub fn given_place(given: &Given) -> Place
    ensures { result ≡ given_place given.now }
{
    match given {
        Given::Value(None, said) => said.place,
        Given::Value(Some(keyword), _) => keyword.place,
        Given::Triplet(place, _, _, _) => *place,
    }
}

pub fn is_keyed(given: &Given) -> bool
    ensures { result ≡ is_keyed given.now }
{
    match given {
        Given::Value(Some(_), _) => true,
        Given::Value(None, _) => false,
        Given::Triplet(_, _, _, _) => false,
    }
}

fn has_fits_dummy(object: Object, has: Option<Has>) -> bool
    ensures { result ≡ has_fits_dummy object has }
{
    match has {
        Some(has) => {
            !has_type(Some(has))
                || ((!object.is_allocatable || has.is_allocatable)
                    && has.rank == object.rank
                    && same_known(object.data_type, has.data_type))
        }
        None => true,
    }
}

pub fn within_count(count: usize, position: usize) -> Option<usize>
    ensures { result ≡ within_count count position }
{
    if position < count {
        Some(position)
    } else {
        None
    }
}

/// The dummy that an argument is for, by its place.
fn place_for(dummies: &IndexMap<usize, Dummy>, position: usize, given: &Given) -> Option<usize>
    ensures { result ≡ place_for dummies.now.entries position given.now }
{
    match given {
        Given::Value(Some(keyword), _) => dummies.get_index_of(&keyword.symbol),
        Given::Value(None, _) => within_count(dummies.len(), position),
        Given::Triplet(_, _, _, _) => within_count(dummies.len(), position),
    }
}

fn dummy_at(dummies: &IndexMap<usize, Dummy>, place: usize) -> Option<Dummy>
    ensures { result ≡ at_place_of dummies.now.entries place }
{
    match dummies.get_index(place) {
        Some((_, dummy)) => Some(*dummy),
        None => None,
    }
}

fn fits_at(dummy: Option<Dummy>, given: &Given) -> bool
    ensures { result ≡ fits_at dummy given.now }
{
    match (dummy, given) {
        (Some(dummy), Given::Value(_, said)) => has_fits_dummy(dummy.object, said.has),
        (_, _) => false,
    }
}

fn is_free(
    dummies: &IndexMap<usize, Dummy>,
    taken: &IndexSet<usize>,
    given: &Given,
    place: Option<usize>,
) -> bool
    ensures { result ≡ is_free dummies.now.entries taken.now.keys given.now place }
{
    match place {
        Some(place) => !taken.contains(&place) && fits_at(dummy_at(dummies, place), given),
        None => false,
    }
}

pub fn take(taken: &mut IndexSet<usize>, place: Option<usize>) -> Result<(), AllocError>
    ensures { OnOk result (taken.new.keys ≡ added taken.old.keys place) }
{
    if let Some(place) = place {
        taken.insert(place)?;
    }
    Ok(())
}

pub fn either(a: bool, b: bool) -> bool
    ensures { result ≡ a || b }
{
    a || b
}

pub fn both(a: bool, b: bool) -> bool
    ensures { result ≡ a && b }
{
    a && b
}

/// Whether an argument breaks no rule, where these dummies have one and a keyword stands before or not.
fn argument_fits(
    dummies: &IndexMap<usize, Dummy>,
    taken: &IndexSet<usize>,
    keyed: bool,
    given: &Given,
    place: Option<usize>,
) -> bool
    ensures { result ≡ (is_keyed given.now || not keyed) && is_free dummies.now.entries taken.now.keys given.now place }
{
    (is_keyed(given) || !keyed) && is_free(dummies, taken, given, place)
}

/// Whether arguments are right, and whether each dummy has one.
#[derive(Clone, Copy)]
pub struct Match {
    pub right: bool,
    pub complete: bool,
}

/// Matches arguments with dummies.
fn matching(
    alloc: Global,
    first: &mut Option<Break>,
    dummies: &IndexMap<usize, Dummy>,
    given: &[Given],
) -> Result<Match, AllocError>
    ensures right { IfOk result (λ m. m.right ≡ all_fit dummies.now.entries 0 given.now no_match) }
    ensures complete { IfOk result (λ m. m.complete ≡ is_complete dummies.now.entries given.now) }
    ensures noted { OnOk result (first.new ≡ noted first.old (argument_rows dummies.now.entries 0 given.now no_match)) }
{
    let mut taken = IndexSet::new(alloc);
    let mut keyed = false;
    let mut right = true;
    for position in 0..given.len() {
        let one = &given[position];
        let place = place_for(dummies, position, one);
        let fit = argument_fits(dummies, &taken, keyed, one, place);
        unless(first, fit, at_place(6, Rule::T8, given_place(one)));
        take(&mut taken, place)?;
        keyed = either(keyed, is_keyed(one));
        right = both(right, fit);
    }
    Ok(Match {
        right,
        complete: taken.len() == dummies.len(),
    })
}

fn result_has(right: bool, object: Object) -> Option<Has>
    ensures { result ≡ (if right then Some (result_has object) else None) }
{
    if right {
        Some(Has {
            data_type: object.data_type,
            rank: object.rank,
            is_allocatable: false,
            form: Form::Computed,
        })
    } else {
        None
    }
}

/// A reference to a function.
#[tactic(auto, using(f3_typed_parts::proofs::Noting::noted_more, f3_typed_parts::proofs::Noting::noted_none))]
pub fn function(
    alloc: Global,
    first: &mut Option<Break>,
    name: Name,
    dummies: &IndexMap<usize, Dummy>,
    object: Object,
    given: &[Given],
) -> Result<Judged, AllocError>
    ensures typed { IfOk result (λ j. j.are_parts_typed ≡ are_right dummies.now.entries given.now) }
    ensures has { IfOk result (λ j. j.has ≡ function_has dummies.now.entries object given.now) }
    ensures noted { OnOk result (first.new ≡ noted first.old (function_rows name dummies.now.entries given.now)) }
{
    let matched = matching(alloc, first, dummies, given)?;
    let right = both(all_typed(given), matched.right);
    unless(
        first,
        either(!right, matched.complete),
        at_place(6, Rule::T8, name.place),
    );
    Ok(Judged {
        are_parts_typed: right,
        has: result_has(both(right, matched.complete), object),
    })
}

/// The arguments of a CALL.
#[tactic(auto, using(f3_typed_parts::proofs::Noting::noted_more))]
pub fn call(
    alloc: Global,
    first: &mut Option<Break>,
    name: Name,
    dummies: &IndexMap<usize, Dummy>,
    given: &[Given],
) -> Result<(), AllocError>
    ensures { OnOk result (first.new ≡ noted first.old (call_rows name dummies.now.entries given.now)) }
{
    let matched = matching(alloc, first, dummies, given)?;
    unless(first, matched.complete, at_place(6, Rule::T8, name.place));
    Ok(())
}
