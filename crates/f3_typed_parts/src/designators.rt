//! Designators of objects.

ghost use Rattle.std.specs.Prelude.{◌≡◌, ◌&&◌, map, option_map};
ghost use Rattle.std.specs.List.{list_all, flat_map};
ghost use Rattle.f3_kinds.specs.Designators.{fits_perhaps, rows_perhaps, subscript_fits, subscript_rows, is_triplet, is_bounds, is_allocation, is_of_heap, reached_parts, are_fit, count_is_right, triplets, rank_left, is_bare, part_rows, start, enter, enter_rows, select, step, step_rows, along, along_rows, is_typed_perhaps, is_typed, are_typed, parts_typed, role_fits, reach_has, reach_rows, object_reach, object_rows, object_parts, is_last};
ghost use Rattle.f3_typed_parts.specs.Known.{context_of, part_of};
ghost use Rattle.f3_typed_parts.specs.Noted.{noted};

use crate::known::{Known, Part, Position};
use crate::noted::{at_name, at_place, note, unless};
use crate::rows::{fits, has_type, scalar};
use f3_kinds::said::{Form, Given, Has, Reach, Role, Said, Selected};
use f3_kinds::things::Thing;
use f3_kinds::types::{DataType, Object, Wanted};
use f3_rules::breaks::Break;
use f3_rules::rule::Rule;
use f3_tree::expression::Name;

fn fits_perhaps(said: &Option<Said>) -> bool
    ensures { result ≡ fits_perhaps said.now }
{
    match said {
        Some(said) => fits(Wanted::Integer, said),
        None => true,
    }
}

#[tactic(auto, using(crate::proofs::Noting::noted_none))]
fn perhaps(first: &mut Option<Break>, said: &Option<Said>)
    ensures { first.new ≡ noted first.old (rows_perhaps said.now) }
{
    if let Some(said) = said {
        scalar(first, Wanted::Integer, said);
    }
}

fn subscript_fits(given: &Given) -> bool
    ensures { result ≡ subscript_fits given.now }
{
    match given {
        Given::Value(None, said) => fits(Wanted::Integer, said),
        Given::Value(Some(_), _) => false,
        Given::Triplet(_, from, to, stride) => {
            fits_perhaps(from) && fits_perhaps(to) && fits_perhaps(stride)
        }
    }
}

#[tactic(auto, using(crate::proofs::Noting::noted_more))]
fn subscript(first: &mut Option<Break>, given: &Given)
    ensures { first.new ≡ noted first.old (subscript_rows given.now) }
{
    match given {
        Given::Value(None, said) => scalar(first, Wanted::Integer, said),
        Given::Value(Some(keyword), _) => note(first, at_name(6, Rule::T9, *keyword)),
        Given::Triplet(_, from, to, stride) => {
            perhaps(first, from);
            perhaps(first, to);
            perhaps(first, stride);
        }
    }
}

pub fn is_triplet(given: &Given) -> bool
    ensures { result ≡ is_triplet given.now }
{
    match given {
        Given::Value(_, _) => false,
        Given::Triplet(_, _, _, _) => true,
    }
}

fn is_bounds(given: &Given) -> bool
    ensures { result ≡ is_bounds given.now }
{
    match given {
        Given::Value(_, _) => true,
        Given::Triplet(_, Some(_), Some(_), None) => true,
        Given::Triplet(_, _, _, _) => false,
    }
}

/// Whether bounds stand behind a part, which is the last one or not.
fn bounds_at(role: Role, last: bool) -> bool
    ensures { result ≡ is_allocation role && last }
{
    match role {
        Role::Allocated => last,
        Role::Deallocated => false,
        Role::Expression => false,
        Role::Variable => false,
    }
}

fn is_last(parts: &[Part]) -> bool
    ensures { result ≡ is_last (map part_of parts.now) }
{
    match parts {
        [] => true,
        [_, ..] => false,
    }
}

/// Whether an object of ALLOCATE or DEALLOCATE is meant.
pub fn is_of_heap(role: Role) -> bool
    ensures { result ≡ is_of_heap role }
{
    match role {
        Role::Allocated => true,
        Role::Deallocated => true,
        Role::Expression => false,
        Role::Variable => false,
    }
}

fn all_fit(given: &[Given]) -> bool
    ensures { result ≡ list_all subscript_fits given.now }
{
    given.iter().all(|one| subscript_fits(one))
}

fn are_fit(part: &Part) -> bool
    ensures { result ≡ are_fit (part_of part.now).1 }
{
    match &part.given {
        Some(given) => all_fit(given),
        None => true,
    }
}

fn all_bounds(given: &[Given]) -> bool
    ensures { result ≡ list_all is_bounds given.now }
{
    given.iter().all(|one| is_bounds(one))
}

fn count_is_right(bounds: bool, object: Object, part: &Part) -> bool
    ensures { result ≡ count_is_right bounds object (part_of part.now).1 }
{
    match &part.given {
        Some(given) => {
            given.len() == object.rank && given.len() != 0 && (!bounds || all_bounds(given))
        }
        None => !(bounds && object.is_allocatable && object.rank != 0),
    }
}

fn triplets(given: &[Given]) -> usize
    ensures { result ≡ triplets given.now }
{
    let mut count = 0;
    for one in given {
        if is_triplet(one) {
            count += 1;
        }
    }
    count
}

fn rank_left(bounds: bool, object: Object, part: &Part) -> usize
    ensures { result ≡ rank_left bounds object (part_of part.now).1 }
{
    match &part.given {
        Some(given) => { if bounds { object.rank } else { triplets(given) } }
        None => object.rank,
    }
}

fn subscripts(first: &mut Option<Break>, given: &[Given])
    ensures { first.new ≡ noted first.old (flat_map subscript_rows given.now) }
{
    for one in given {
        subscript(first, one);
    }
}

#[tactic(auto, using(crate::proofs::Noting::noted_none))]
fn part_rows(first: &mut Option<Break>, part: &Part)
    ensures { first.new ≡ noted first.old (part_rows (part_of part.now).1) }
{
    if let Some(given) = &part.given {
        subscripts(first, given);
    }
}

fn start(object: Object) -> Reach
    ensures { result ≡ start object }
{
    Reach {
        object,
        is_fit: true,
        rank: 0,
        offends: false,
        is_allocatable: false,
    }
}

fn enter(bounds: bool, reach: Reach, object: Object, part: &Part) -> Option<Reach>
    ensures { result ≡ enter bounds reach object (part_of part.now).1 }
{
    let fit = are_fit(part);
    if fit && !count_is_right(bounds, object, part) {
        return None;
    }
    let left = rank_left(bounds, object, part);
    Some(Reach {
        object,
        is_fit: reach.is_fit && fit,
        rank: if reach.rank == 0 { left } else { reach.rank },
        offends: reach.offends || (reach.rank != 0 && (object.is_allocatable || left != 0)),
        is_allocatable: object.is_allocatable && (part.given.is_none() || bounds),
    })
}

#[tactic(auto, using(crate::proofs::Noting::noted_none, crate::proofs::Noting::noted_more))]
fn enter_rows(first: &mut Option<Break>, bounds: bool, object: Object, part: &Part)
    ensures { first.new ≡ noted first.old (enter_rows bounds object (part_of part.now)) }
{
    part_rows(first, part);
    if are_fit(part) {
        let right = count_is_right(bounds, object, part);
        unless(first, right, at_place(6, Rule::T7, part.name.place));
    }
}

/// The component that a name selects of an object.
fn select(known: &Known<'_>, at: Position, object: Object, name: Name) -> Selected
    ensures { result ≡ select (context_of known.now at) object name }
{
    match object.data_type {
        Some(DataType::Derived(number)) => match known.things.get(number) {
            Some(Thing::Type(table)) => match table.components.get(&name.symbol) {
                Some(component) => {
                    if !component.is_private || table.home == at.unit {
                        Selected::Component(*component)
                    } else {
                        Selected::Hidden
                    }
                }
                None => Selected::Missing,
            },
            Some(_) => Selected::Missing,
            None => Selected::Missing,
        },
        Some(DataType::Integer(_)) => Selected::Missing,
        Some(DataType::Logical) => Selected::Missing,
        None => Selected::Unknown,
    }
}

#[tactic(auto, using(crate::proofs::Noting::noted_none))]
fn step(
    known: &Known<'_>,
    at: Position,
    first: &mut Option<Break>,
    bounds: bool,
    part: &Part,
    reach: Option<Reach>,
) -> Option<Reach>
    ensures reached { result ≡ step (context_of known.now at) bounds (part_of part.now) reach }
    ensures noted { first.new ≡ noted first.old (step_rows (context_of known.now at) bounds (part_of part.now) reach) }
{
    match reach {
        Some(reach) => match select(known, at, reach.object, part.name) {
            Selected::Component(component) => {
                enter_rows(first, bounds, component.object, part);
                enter(bounds, reach, component.object, part)
            }
            Selected::Missing => {
                note(first, at_name(6, Rule::N12, part.name));
                None
            }
            Selected::Hidden => {
                note(first, at_name(6, Rule::N13, part.name));
                None
            }
            Selected::Unknown => None,
        },
        None => None,
    }
}

/// Goes along the parts behind `%`.
fn along(
    known: &Known<'_>,
    at: Position,
    first: &mut Option<Break>,
    role: Role,
    parts: &[Part],
    reach: Option<Reach>,
) -> Option<Reach>
    ensures reached { result ≡ along (context_of known.now at) role (map part_of parts.now) reach }
    ensures noted { first.new ≡ noted first.old (along_rows (context_of known.now at) role (map part_of parts.now) reach) }
{
    let mut reached = reach;
    for number in 0..parts.len() {
        let bounds = bounds_at(role, parts.len() == number + 1);
        let part = &parts[number];
        reached = step(known, at, first, bounds, part, reached);
    }
    reached
}

fn is_typed_perhaps(said: &Option<Said>) -> bool
    ensures { result ≡ is_typed_perhaps said.now }
{
    match said {
        Some(said) => has_type(said.has),
        None => true,
    }
}

pub fn is_typed(given: &Given) -> bool
    ensures { result ≡ is_typed given.now }
{
    match given {
        Given::Value(_, said) => has_type(said.has),
        Given::Triplet(_, from, to, stride) => {
            is_typed_perhaps(from) && is_typed_perhaps(to) && is_typed_perhaps(stride)
        }
    }
}

/// Whether all that is given has types.
pub fn all_typed(given: &[Given]) -> bool
    ensures { result ≡ list_all is_typed given.now }
{
    given.iter().all(|one| is_typed(one))
}

pub fn are_typed(part: &Part) -> bool
    ensures { result ≡ are_typed (part_of part.now).1 }
{
    match &part.given {
        Some(given) => all_typed(given),
        None => true,
    }
}

fn each_typed(parts: &[Part]) -> bool
    ensures { result ≡ list_all (λ p. are_typed (part_of p).1) parts.now }
{
    parts.iter().all(|part| are_typed(part))
}

/// Whether all that is given behind these parts has types.
#[tactic(auto, using(crate::proofs::Walking::typed_all))]
pub fn parts_typed(parts: &[Part]) -> bool
    ensures { result ≡ parts_typed (map part_of parts.now) }
{
    each_typed(parts)
}

fn reached_parts(
    bounds: bool,
    object: Object,
    part: &Part,
    others: &[Part],
    reach: Option<Reach>,
) -> bool
    ensures { result ≡ reached_parts bounds object (part_of part.now) (map part_of others.now) reach }
{
    match reach {
        Some(reach) => reach.is_fit,
        None => { are_fit(part) && !count_is_right(bounds, object, part) && parts_typed(others) }
    }
}

fn role_fits(role: Role, reach: Reach) -> bool
    ensures { result ≡ role_fits role reach }
{
    !is_of_heap(role) || reach.is_allocatable
}

fn reach_has(form: Form, role: Role, reach: Option<Reach>) -> Option<Has>
    ensures { result ≡ reach_has form role reach }
{
    match reach {
        Some(reach) => {
            if reach.is_fit && !reach.offends && role_fits(role, reach) {
                Some(Has {
                    data_type: reach.object.data_type,
                    rank: reach.rank,
                    is_allocatable: reach.is_allocatable,
                    form,
                })
            } else {
                None
            }
        }
        None => None,
    }
}

#[tactic(auto, using(crate::proofs::Noting::noted_none))]
fn reach_rows(first: &mut Option<Break>, role: Role, name: Name, reach: Option<Reach>)
    ensures { first.new ≡ noted first.old (reach_rows role name reach) }
{
    if let Some(reach) = reach {
        if reach.is_fit {
            if reach.offends {
                note(first, at_place(6, Rule::T7, name.place));
            } else {
                unless(first, role_fits(role, reach), at_name(6, Rule::T9, name));
            }
        }
    }
}

/// What is said of a designator of an object: whether its parts have types, and what it has.
#[derive(Clone, Copy)]
pub struct Judged {
    pub are_parts_typed: bool,
    pub has: Option<Has>,
}

/// The designator of an object.
#[tactic(auto, using(crate::proofs::Noting::noted_more))]
pub fn object(
    known: &Known<'_>,
    at: Position,
    first: &mut Option<Break>,
    role: Role,
    form: Form,
    object: Object,
    part: &Part,
    others: &[Part],
) -> Judged
    ensures typed { result.are_parts_typed ≡ object_parts (context_of known.now at) role object (part_of part.now) (map part_of others.now) }
    ensures has { result.has ≡ reach_has form role (object_reach (context_of known.now at) role object (part_of part.now) (map part_of others.now)) }
    ensures noted { first.new ≡ noted first.old (object_rows (context_of known.now at) role object (part_of part.now) (map part_of others.now)) }
{
    let bounds = bounds_at(role, is_last(others));
    enter_rows(first, bounds, object, part);
    let entered = enter(bounds, start(object), object, part);
    let reach = along(known, at, first, role, others, entered);
    reach_rows(first, role, part.name, reach);
    Judged {
        are_parts_typed: reached_parts(bounds, object, part, others, reach),
        has: reach_has(form, role, reach),
    }
}
