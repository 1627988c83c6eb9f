//! MOVE_ALLOC, whose dummies are made at the call (13.7.82).

ghost use Rattle.std.specs.Prelude.{◌≡◌, ◌&&◌, ◌||◌, not, IfOk, OnOk, map, nat_eq, None, Some, true, false, length, if◌then◌else◌};
ghost use Rattle.std.specs.List.{position};
ghost use Rattle.f3_kinds.specs.declared.said.Has.{Has};
ghost use Rattle.f3_kinds.specs.Things.{map_or, place_of, at_place_of};
ghost use Rattle.f3_kinds.specs.Rows.{has_type};
ghost use Rattle.f3_kinds.specs.Calls.{place_for, has_fits_dummy, fits_at, is_free, is_keyed, argument_rows, is_complete, no_match, call_rows};
ghost use Rattle.f3_type_rules.specs.Statements.{allocatable_as, two_dummies, has_of, given_at, moving_dummies};
ghost use Rattle.f3_typed_parts.specs.Noted.{noted};

use f3_kinds::said::{Given, Has};
use f3_kinds::things::Dummy;
use f3_kinds::types::Object;
use f3_references::arguments::{either, given_place, is_keyed, take, within_count};
use f3_rules::breaks::Break;
use f3_rules::rule::Rule;
use f3_tree::expression::Name;
use f3_typed_parts::noted::{at_place, unless};
use f3_typed_parts::operands::{same_known, type_in};
use f3_typed_parts::rows::has_type;
use indexmap::IndexSet;
use std::alloc::{AllocError, Global};

fn rank_of(has: Option<Has>) -> usize
    ensures { result ≡ map_or 0 (λ (h : Has). h.rank) has }
{
    match has {
        Some(has) => has.rank,
        None => 0,
    }
}

/// An allocatable dummy for what is given.
fn allocatable_as(has: Option<Has>) -> Dummy
    ensures { result ≡ allocatable_as has }
{
    Dummy {
        object: Object {
            data_type: type_in(has),
            rank: rank_of(has),
            is_allocatable: true,
        },
        intent: None,
    }
}

fn two_dummies(names: (usize, usize), from: Option<Has>, to: Option<Has>) -> [(usize, Dummy); 2]
    ensures { result ≡ two_dummies names from to }
{
    [
        (names.0, allocatable_as(from)),
        (names.1, allocatable_as(to)),
    ]
}

fn named_at(dummies: &[(usize, Dummy)], symbol: usize) -> Option<usize>
    ensures { result ≡ position (λ d. nat_eq symbol d.0) dummies.now }
{
    dummies.iter().position(|dummy| symbol == dummy.0)
}

/// The place of the dummy with this name.
#[tactic(auto, using(crate::proofs::Dummies::named_at))]
fn place_of(dummies: &[(usize, Dummy)], symbol: usize) -> Option<usize>
    ensures { result ≡ place_of dummies.now symbol }
{
    named_at(dummies, symbol)
}

/// The dummy that an argument is for, by its place.
fn place_for(dummies: &[(usize, Dummy)], position: usize, given: &Given) -> Option<usize>
    ensures { result ≡ place_for dummies.now position given.now }
{
    match given {
        Given::Value(Some(keyword), _) => place_of(dummies, keyword.symbol),
        Given::Value(None, _) => within_count(dummies.len(), position),
        Given::Triplet(_, _, _, _) => within_count(dummies.len(), position),
    }
}

fn dummy_at(dummies: &[(usize, Dummy)], place: usize) -> Option<Dummy>
    ensures { result ≡ at_place_of dummies.now place }
{
    match dummies.get(place) {
        Some(dummy) => Some(dummy.1),
        None => None,
    }
}

fn has_of(given: &Given) -> Option<Has>
    ensures { result ≡ has_of given.now }
{
    match given {
        Given::Value(_, said) => said.has,
        Given::Triplet(_, _, _, _) => None,
    }
}

/// Whether an argument is for the dummy at a place.
fn is_for(dummies: &[(usize, Dummy)], place: usize, position: usize, given: &Given) -> bool
    ensures { result ≡ map_or false (nat_eq place) (place_for dummies.now position given.now) }
{
    match place_for(dummies, position, given) {
        Some(other) => place == other,
        None => false,
    }
}

/// What the first argument has that is for the dummy at a place.
fn given_at(names: (usize, usize), place: usize, given: &[Given]) -> Option<Has>
    ensures { result ≡ given_at names place 0 given.now }
{
    let dummies = two_dummies(names, None, None);
    for position in 0..given.len() {
        let one = &given[position];
        if is_for(&dummies, place, position, one) {
            return has_of(one);
        }
    }
    None
}

/// Whether what is given for FROM is right.
fn is_movable(has: Option<Has>) -> bool
    ensures { result ≡ map_or false (λ (h : Has). h.is_allocatable && has_type (Some h)) has }
{
    match has {
        Some(has) => has.is_allocatable && has_type(Some(has)),
        None => false,
    }
}

fn chosen(first: bool, a: Option<Has>, b: Option<Has>) -> Option<Has>
    ensures { result ≡ (if first then a else b) }
{
    if first { a } else { b }
}

fn moving_dummies(names: (usize, usize), given: &[Given]) -> [(usize, Dummy); 2]
    ensures { result ≡ moving_dummies names given.now }
{
    let from = given_at(names, 0, given);
    let to = given_at(names, 1, given);
    two_dummies(names, from, chosen(is_movable(from), from, to))
}

fn has_fits_dummy(object: Object, has: Option<Has>) -> bool
    ensures { result ≡ has_fits_dummy object has }
{
    match has {
        Some(has) => {
            !has_type(Some(has))
                || ((!object.is_allocatable || has.is_allocatable)
                    && has.rank == object.rank
                    && same_known(object.data_type, has.data_type))
        }
        None => true,
    }
}

fn fits_at(dummy: Option<Dummy>, given: &Given) -> bool
    ensures { result ≡ fits_at dummy given.now }
{
    match (dummy, given) {
        (Some(dummy), Given::Value(_, said)) => has_fits_dummy(dummy.object, said.has),
        (_, _) => false,
    }
}

fn is_free(
    dummies: &[(usize, Dummy)],
    taken: &IndexSet<usize>,
    given: &Given,
    place: Option<usize>,
) -> bool
    ensures { result ≡ is_free dummies.now taken.now.keys given.now place }
{
    match place {
        Some(place) => !taken.contains(&place) && fits_at(dummy_at(dummies, place), given),
        None => false,
    }
}

/// Whether an argument breaks no rule, where these dummies have one and a keyword stands before or not.
fn argument_fits(
    dummies: &[(usize, Dummy)],
    taken: &IndexSet<usize>,
    keyed: bool,
    given: &Given,
    place: Option<usize>,
) -> bool
    ensures { result ≡ (is_keyed given.now || not keyed) && is_free dummies.now taken.now.keys given.now place }
{
    (is_keyed(given) || !keyed) && is_free(dummies, taken, given, place)
}

/// Matches arguments with dummies, and says whether each dummy has one.
fn matching(
    alloc: Global,
    first: &mut Option<Break>,
    dummies: &[(usize, Dummy)],
    given: &[Given],
) -> Result<bool, AllocError>
    ensures complete { IfOk result (λ b. b ≡ is_complete dummies.now given.now) }
    ensures noted { OnOk result (first.new ≡ noted first.old (argument_rows dummies.now 0 given.now no_match)) }
{
    let mut taken = IndexSet::new(alloc);
    let mut keyed = false;
    for position in 0..given.len() {
        let one = &given[position];
        let place = place_for(dummies, position, one);
        let fit = argument_fits(dummies, &taken, keyed, one, place);
        unless(first, fit, at_place(6, Rule::T8, given_place(one)));
        take(&mut taken, place)?;
        keyed = either(keyed, is_keyed(one));
    }
    Ok(taken.len() == dummies.len())
}

/// Notes what is wrong with the arguments of MOVE_ALLOC: FROM and TO are allocatables, TO of the type, the kind and the rank of FROM
/// (13.7.82). `names` are those of the two dummies. It fails where memory runs out.
#[tactic(auto, using(f3_typed_parts::proofs::Noting::noted_more))]
pub fn move_allocation(
    alloc: Global,
    first: &mut Option<Break>,
    name: Name,
    names: (usize, usize),
    given: &[Given],
) -> Result<(), AllocError>
    ensures noted { OnOk result (first.new ≡ noted first.old (call_rows name (moving_dummies names given.now) given.now)) }
{
    let dummies = moving_dummies(names, given);
    let complete = matching(alloc, first, &dummies, given)?;
    unless(first, complete, at_place(6, Rule::T8, name.place));
    Ok(())
}
