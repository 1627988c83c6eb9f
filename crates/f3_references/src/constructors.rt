//! Structure constructors (4.5.9).

ghost use Rattle.std.specs.Prelude.{◌≡◌, ◌&&◌, ◌||◌, not, nat_eq, None, Some, true, [], ◌++◌, IfOk, OnOk, if◌then◌else◌};
ghost use Rattle.f3_rules.specs.declared.rule.Rule.TheVariants.{N13, T10, T12};
ghost use Rattle.std.specs.List.{list_any};
ghost use Rattle.f3_kinds.specs.declared.types.DataType.TheVariants.{Derived};
ghost use Rattle.f3_kinds.specs.declared.things.Component.{Component};
ghost use Rattle.f3_kinds.specs.Things.{map_or, at_place_of};
ghost use Rattle.f3_kinds.specs.Rows.{unless, at_name, computed};
ghost use Rattle.f3_kinds.specs.Designators.{is_triplet};
ghost use Rattle.f3_kinds.specs.Calls.{given_place, is_keyed, place_for, type_takes, value_rows, lead_of, private_at, missing_rows, component_rows, given_rows};
ghost use Rattle.f3_kinds.specs.Calls.{constructor_given, no_breaks, is_new, are_given, is_constructed, constructor_parts, constructor_rows, constructor_has, keeps_type};
ghost use Rattle.f3_typed_parts.specs.Noted.{noted};

use crate::arguments::{both, either, given_place, is_keyed, take, within_count};
use crate::settling::settle;
use f3_kinds::said::{Given, Has};
use f3_kinds::things::Component;
use f3_kinds::types::{DataType, Object};
use f3_places::source::Place;
use f3_rules::breaks::Break;
use f3_rules::rule::Rule;
use f3_tree::expression::Name;
use f3_typed_parts::designators::{Judged, all_typed, is_triplet};
use f3_typed_parts::noted::{at_name, at_place, note, unless};
use f3_typed_parts::rows::{computed, has_type, may_take};
use indexmap::{IndexMap, IndexSet};
use std::alloc::{AllocError, Global};

fn type_takes(component: Option<DataType>, value: Option<DataType>) -> bool
    ensures { result ≡ type_takes component value }
{
    match (component, value) {
        (Some(component), Some(value)) => may_take(component, value),
        (_, _) => true,
    }
}

/// Notes a value that may not define a component.
#[tactic(auto, using(f3_typed_parts::proofs::Noting::noted_none, f3_typed_parts::proofs::Noting::noted_more))]
fn value_rows(first: &mut Option<Break>, object: Object, place: Place, has: Has)
    ensures { first.new ≡ noted first.old (value_rows object place has) }
{
    if has_type(Some(has)) {
        let takes = type_takes(object.data_type, has.data_type);
        unless(first, takes, at_place(6, Rule::T6, place));
        let shaped = has.rank == object.rank || (has.rank == 0 && !object.is_allocatable);
        unless(first, shaped, at_place(6, Rule::T7, place));
    }
}

fn lead_of(given: &Given) -> Option<usize>
    ensures { result ≡ lead_of given.now }
{
    match given {
        Given::Value(_, said) => said.lead,
        Given::Triplet(_, Some(first), _, _) => first.lead,
        Given::Triplet(_, None, _, _) => None,
    }
}

/// The break of a value of a private component.
fn private_at(given: &Given) -> Break
    ensures { result ≡ private_at given.now }
{
    match given {
        Given::Value(Some(keyword), _) => at_name(6, Rule::N13, *keyword),
        Given::Value(None, _) => hidden(given),
        Given::Triplet(_, _, _, _) => hidden(given),
    }
}

fn hidden(given: &Given) -> Break
    ensures { result ≡ record { phase = 6; place = given_place given.now; rule = N13; name = lead_of given.now } }
{
    Break {
        phase: 6,
        place: given_place(given),
        rule: Rule::N13,
        name: lead_of(given),
    }
}

/// Notes a keyword that is no component's.
#[tactic(auto, using(f3_typed_parts::proofs::Noting::noted_none))]
fn missing(first: &mut Option<Break>, given: &Given)
    ensures { first.new ≡ noted first.old (missing_rows given.now) }
{
    match given {
        Given::Value(Some(keyword), _) => note(first, at_name(6, Rule::N12, *keyword)),
        Given::Value(None, _) => {}
        Given::Triplet(_, _, _, _) => {}
    }
}

#[tactic(auto, using(f3_typed_parts::proofs::Noting::noted_none))]
fn component_rows(first: &mut Option<Break>, object: Object, given: &Given)
    ensures { first.new ≡ noted first.old (component_rows object given.now) }
{
    match given {
        Given::Value(_, said) => {
            if let Some(has) = said.has {
                value_rows(first, object, said.place, has);
            }
        }
        Given::Triplet(_, _, _, _) => {}
    }
}

/// Notes what is wrong with the value of a component.
#[tactic(auto, using(f3_typed_parts::proofs::Noting::noted_more))]
fn given_rows(first: &mut Option<Break>, inside: bool, component: Option<Component>, given: &Given)
    ensures { first.new ≡ noted first.old (given_rows inside component given.now) }
{
    match component {
        Some(component) => {
            let open = either(!component.is_private, inside);
            unless(first, open, private_at(given));
            component_rows(first, component.object, given);
        }
        None => missing(first, given),
    }
}

/// The component that a value is for, by its place.
fn place_for(
    components: &IndexMap<usize, Component>,
    position: usize,
    given: &Given,
) -> Option<usize>
    ensures { result ≡ place_for components.now.entries position given.now }
{
    match given {
        Given::Value(Some(keyword), _) => components.get_index_of(&keyword.symbol),
        Given::Value(None, _) => within_count(components.len(), position),
        Given::Triplet(_, _, _, _) => within_count(components.len(), position),
    }
}

fn component_at(components: &IndexMap<usize, Component>, place: usize) -> Option<Component>
    ensures { result ≡ at_place_of components.now.entries place }
{
    match components.get_index(place) {
        Some((_, component)) => Some(*component),
        None => None,
    }
}

fn component_for(components: &IndexMap<usize, Component>, place: Option<usize>) -> Option<Component>
    ensures { result ≡ map_or None (at_place_of components.now.entries) place }
{
    match place {
        Some(place) => component_at(components, place),
        None => None,
    }
}

/// Notes what is wrong with the value at a position.
fn value_at(
    first: &mut Option<Break>,
    inside: bool,
    components: &IndexMap<usize, Component>,
    position: usize,
    one: &Given,
)
    ensures { first.new ≡ noted first.old (given_rows inside (map_or None (at_place_of components.now.entries) (place_for components.now.entries position one.now)) one.now) }
{
    let place = place_for(components, position, one);
    let component = component_for(components, place);
    given_rows(first, inside, component, one);
}

/// Notes what is wrong with values one by one.
fn values(
    first: &mut Option<Break>,
    inside: bool,
    components: &IndexMap<usize, Component>,
    given: &[Given],
)
    ensures { first.new ≡ noted first.old (constructor_given inside components.now.entries 0 given.now) }
{
    for position in 0..given.len() {
        let one = &given[position];
        value_at(first, inside, components, position, one);
    }
}

/// Notes what is wrong with values one by one, and says whether nothing is.
#[tactic(auto, using(crate::proofs::Apart::settled, crate::proofs::Apart::settled_none))]
fn values_right(
    first: &mut Option<Break>,
    inside: bool,
    components: &IndexMap<usize, Component>,
    given: &[Given],
) -> bool
    ensures right { result ≡ no_breaks (constructor_given inside components.now.entries 0 given.now) }
    ensures noted { first.new ≡ noted first.old (constructor_given inside components.now.entries 0 given.now) }
{
    let mut met = None;
    values(&mut met, inside, components, given);
    settle(first, met)
}

fn is_new(taken: &IndexSet<usize>, place: Option<usize>) -> bool
    ensures { result ≡ is_new taken.now.keys place }
{
    match place {
        Some(place) => !taken.contains(&place),
        None => false,
    }
}

/// Whether a value stands where it may.
fn stands(taken: &IndexSet<usize>, keyed: bool, given: &Given, place: Option<usize>) -> bool
    ensures { result ≡ not (is_triplet given.now) && (is_keyed given.now || not keyed) && is_new taken.now.keys place }
{
    !is_triplet(given) && (is_keyed(given) || !keyed) && is_new(taken, place)
}

/// Whether the component at a place has a value, if it needs one.
fn is_given(components: &IndexMap<usize, Component>, taken: &IndexSet<usize>, place: usize) -> bool
    ensures { result ≡ map_or true (λ (k : Component). k.is_initialized || (k.object).is_allocatable || list_any (nat_eq place) taken.now.keys) (at_place_of components.now.entries place) }
{
    match component_at(components, place) {
        Some(component) => {
            component.is_initialized || component.object.is_allocatable || taken.contains(&place)
        }
        None => true,
    }
}

fn are_given(components: &IndexMap<usize, Component>, taken: &IndexSet<usize>) -> bool
    ensures { result ≡ are_given 0 components.now.entries taken.now.keys }
{
    let mut right = true;
    for place in 0..components.len() {
        right = both(right, is_given(components, taken, place));
    }
    right
}

/// Whether each component that needs a value has one, and each value stands where it may.
fn is_constructed(
    alloc: Global,
    components: &IndexMap<usize, Component>,
    given: &[Given],
) -> Result<bool, AllocError>
    ensures { IfOk result (λ b. b ≡ is_constructed components.now.entries given.now) }
{
    let mut taken = IndexSet::new(alloc);
    let mut keyed = false;
    let mut right = true;
    for position in 0..given.len() {
        let one = &given[position];
        let place = place_for(components, position, one);
        right = both(right, stands(&taken, keyed, one, place));
        take(&mut taken, place)?;
        keyed = either(keyed, is_keyed(one));
    }
    Ok(both(right, are_given(components, &taken)))
}

/// Notes what is wrong with a constructor of values that are right.
#[tactic(auto, using(f3_typed_parts::proofs::Noting::noted_none, f3_typed_parts::proofs::Noting::noted_more))]
fn made(
    first: &mut Option<Break>,
    phase: u32,
    name: Name,
    right: bool,
    constructed: bool,
    finalizable: bool,
)
    ensures { first.new ≡ noted first.old (if right then unless constructed (at_name 6 T10 name) ++ unless (not finalizable) (at_name phase T12 name) else []) }
{
    if right {
        unless(first, constructed, at_name(6, Rule::T10, name));
        unless(first, !finalizable, at_name(phase, Rule::T12, name));
    }
}

/// Whether a value of a type that may be finalizable has that type: a break of phase 6 takes it away (own rule).
fn keeps_type(phase: u32, finalizable: bool) -> bool
    ensures { result ≡ keeps_type phase finalizable }
{
    !finalizable || phase != 6
}

fn constructed_has(right: bool, number: usize) -> Option<Has>
    ensures { result ≡ (if right then Some (computed (Derived number) 0) else None) }
{
    if right {
        Some(computed(DataType::Derived(number), 0))
    } else {
        None
    }
}

/// A constructor of the type that is this entity.
#[tactic(auto, using(f3_typed_parts::proofs::Noting::noted_more))]
pub fn constructor(
    alloc: Global,
    first: &mut Option<Break>,
    phase: u32,
    name: Name,
    number: usize,
    inside: bool,
    components: &IndexMap<usize, Component>,
    finalizable: bool,
    given: &[Given],
) -> Result<Judged, AllocError>
    ensures typed { IfOk result (λ j. j.are_parts_typed ≡ constructor_parts inside components.now.entries given.now) }
    ensures has { IfOk result (λ j. j.has ≡ constructor_has phase number inside components.now.entries finalizable given.now) }
    ensures noted { OnOk result (first.new ≡ noted first.old (constructor_rows phase name inside components.now.entries finalizable given.now)) }
{
    let fit = values_right(first, inside, components, given);
    let right = both(all_typed(given), fit);
    let constructed = is_constructed(alloc, components, given)?;
    made(first, phase, name, right, constructed, finalizable);
    let whole = both(constructed, keeps_type(phase, finalizable));
    Ok(Judged {
        are_parts_typed: right,
        has: constructed_has(both(right, whole), number),
    })
}
