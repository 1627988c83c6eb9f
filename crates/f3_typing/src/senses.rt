//! Designators, by what their first names mean.

ghost use Rattle.std.specs.Prelude.{◌≡◌, None, Some, [], ◌∷◌, map, option_map, IfOk, OnOk};
ghost use Rattle.f3_kinds.specs.Rows.{at_name};
ghost use Rattle.f3_kinds.specs.Designators.{parts_typed};
ghost use Rattle.f3_kinds.specs.Things.{entity_or, map_or, nothing, intrinsic};
ghost use Rattle.f3_typing.specs.Inner.Intrinsics.{is_function};
ghost use Rattle.f3_kinds.specs.Typing.{called, sense, sense_of, sense_has, sense_parts, sense_rows, designator_said, designator_rows, nowhere};
ghost use Rattle.f3_typed_parts.specs.Known.{context_of, part_of, nature_of};
ghost use Rattle.f3_typed_parts.specs.Noted.{noted};

use f3_access::lookup;
use f3_kinds::said::{Form, Given, Role, Said};
use f3_kinds::things::{Intrinsic, Thing};
use f3_lookups::lookup::Lookup;
use f3_places::source::Place;
use f3_references::arguments::function;
use f3_references::constructors::constructor;
use f3_references::intrinsics::intrinsic_function;
use f3_rules::breaks::Break;
use f3_rules::rule::Rule;
use f3_tree::expression::Name;
use f3_typed_parts::designators::{Judged, are_typed, is_of_heap, object, parts_typed};
use f3_typed_parts::known::{Known, Part, Position};
use f3_typed_parts::noted::{at_name, note};
use f3_typed_parts::operands::unnamed;
use std::alloc::{AllocError, Global};

/// What stands in the parentheses behind the only name of an expression, where they stand.
fn called<'a>(role: Role, part: &'a Part, others: &[Part]) -> Option<&'a [Given]>
    ensures { option_map (λ g. g.now) result ≡ called role (map part_of others.now) (part_of part.now).1 }
{
    match role {
        Role::Expression => match others {
            [] => match &part.given {
                Some(given) => Some(given.as_slice()),
                None => None,
            },
            [_, ..] => None,
        },
        Role::Variable => None,
        Role::Allocated => None,
        Role::Deallocated => None,
    }
}

/// A name that means nothing that may stand there.
fn unmeant(first: &mut Option<Break>, rule: Rule, part: &Part, others: &[Part]) -> Judged
    ensures typed { result.are_parts_typed ≡ parts_typed (part_of part.now ∷ map part_of others.now) }
    ensures has { result.has ≡ None }
    ensures noted { first.new ≡ noted first.old (at_name 6 rule part.now.name ∷ []) }
{
    note(first, at_name(6, rule, part.name));
    Judged {
        are_parts_typed: are_typed(part) && parts_typed(others),
        has: None,
    }
}

/// A name that is this entity.
fn entity(
    alloc: Global,
    known: &Known<'_>,
    at: Position,
    first: &mut Option<Break>,
    role: Role,
    part: &Part,
    others: &[Part],
    number: usize,
    thing: &Thing,
) -> Result<Judged, AllocError>
    ensures typed { IfOk result (λ j. j.are_parts_typed ≡ sense_parts (context_of known.now at) role (part_of part.now) (map part_of others.now) (sense_of at.unit role part.now.name (entity_or number (Some (nature_of thing.now))) (called role (map part_of others.now) (part_of part.now).1))) }
    ensures has { IfOk result (λ j. j.has ≡ sense_has (context_of known.now at) role (part_of part.now) (map part_of others.now) (sense_of at.unit role part.now.name (entity_or number (Some (nature_of thing.now))) (called role (map part_of others.now) (part_of part.now).1))) }
    ensures noted { OnOk result (first.new ≡ noted first.old (sense_rows (context_of known.now at) role (part_of part.now) (map part_of others.now) (sense_of at.unit role part.now.name (entity_or number (Some (nature_of thing.now))) (called role (map part_of others.now) (part_of part.now).1)))) }
{
    match thing {
        Thing::Variable(declared) => {
            Ok(object(
                known,
                at,
                first,
                role,
                Form::Variable(number),
                *declared,
                part,
                others,
            ))
        }
        Thing::Constant(declared) => {
            if is_of_heap(role) {
                Ok(unmeant(first, Rule::T9, part, others))
            } else {
                Ok(object(
                    known,
                    at,
                    first,
                    role,
                    Form::Constant,
                    *declared,
                    part,
                    others,
                ))
            }
        }
        Thing::Function(signature, result) => match called(role, part, others) {
            Some(given) => function(alloc, first, part.name, &signature.dummies, *result, given),
            None => Ok(unmeant(first, Rule::T9, part, others)),
        },
        Thing::Type(table) => match called(role, part, others) {
            Some(given) => constructor(
                alloc,
                first,
                at.phase,
                part.name,
                number,
                table.home == at.unit,
                &table.components,
                table.is_finalizable,
                given,
            ),
            None => Ok(unmeant(first, Rule::T9, part, others)),
        },
        Thing::Subroutine(_) => Ok(unmeant(first, Rule::T9, part, others)),
    }
}

/// The intrinsic procedure that a name means where no entity has it.
fn intrinsic_of(known: &Known<'_>, at: Position, symbol: usize) -> Option<Intrinsic>
    ensures { result ≡ (context_of known.now at).intrinsic symbol }
{
    match known.intrinsics.get(symbol) {
        Some(intrinsic) => *intrinsic,
        None => None,
    }
}

/// Whether an intrinsic procedure is a function.
fn is_function(intrinsic: Intrinsic) -> bool
    ensures { result ≡ is_function intrinsic }
{
    match intrinsic {
        Intrinsic::MoveAlloc => false,
        Intrinsic::Abs => true,
        Intrinsic::Mod => true,
        Intrinsic::Modulo => true,
        Intrinsic::Max => true,
        Intrinsic::Min => true,
        Intrinsic::Size => true,
        Intrinsic::LowerBound => true,
        Intrinsic::UpperBound => true,
        Intrinsic::Allocated => true,
    }
}

/// A name that no entity has.
#[tactic(auto, using(crate::proofs::Intrinsics::sense_given, crate::proofs::Intrinsics::sense_bare))]
fn unlisted(
    known: &Known<'_>,
    at: Position,
    first: &mut Option<Break>,
    role: Role,
    part: &Part,
    others: &[Part],
) -> Judged
    ensures typed { result.are_parts_typed ≡ sense_parts (context_of known.now at) role (part_of part.now) (map part_of others.now) (sense_of at.unit role part.now.name (map_or nothing intrinsic ((context_of known.now at).intrinsic part.now.name.symbol)) (called role (map part_of others.now) (part_of part.now).1)) }
    ensures has { result.has ≡ sense_has (context_of known.now at) role (part_of part.now) (map part_of others.now) (sense_of at.unit role part.now.name (map_or nothing intrinsic ((context_of known.now at).intrinsic part.now.name.symbol)) (called role (map part_of others.now) (part_of part.now).1)) }
    ensures noted { first.new ≡ noted first.old (sense_rows (context_of known.now at) role (part_of part.now) (map part_of others.now) (sense_of at.unit role part.now.name (map_or nothing intrinsic ((context_of known.now at).intrinsic part.now.name.symbol)) (called role (map part_of others.now) (part_of part.now).1))) }
{
    match intrinsic_of(known, at, part.name.symbol) {
        Some(intrinsic) => match called(role, part, others) {
            Some(given) => {
                if is_function(intrinsic) {
                    intrinsic_function(first, part.name, intrinsic, given)
                } else {
                    unmeant(first, Rule::T9, part, others)
                }
            }
            None => unmeant(first, Rule::T9, part, others),
        },
        None => unmeant(first, Rule::N10, part, others),
    }
}

/// A designator, by what its first name means.
fn meant(
    alloc: Global,
    known: &Known<'_>,
    at: Position,
    first: &mut Option<Break>,
    role: Role,
    part: &Part,
    others: &[Part],
) -> Result<Judged, AllocError>
    ensures typed { IfOk result (λ j. j.are_parts_typed ≡ sense_parts (context_of known.now at) role (part_of part.now) (map part_of others.now) (sense (context_of known.now at) role (part_of part.now) (map part_of others.now))) }
    ensures has { IfOk result (λ j. j.has ≡ sense_has (context_of known.now at) role (part_of part.now) (map part_of others.now) (sense (context_of known.now at) role (part_of part.now) (map part_of others.now))) }
    ensures noted { OnOk result (first.new ≡ noted first.old (sense_rows (context_of known.now at) role (part_of part.now) (map part_of others.now) (sense (context_of known.now at) role (part_of part.now) (map part_of others.now)))) }
{
    match lookup(known.tables, at.scope, part.name.symbol) {
        Lookup::One(number) => match known.things.get(number) {
            Some(thing) => entity(alloc, known, at, first, role, part, others, number, thing),
            None => Ok(unmeant(first, Rule::N10, part, others)),
        },
        Lookup::Several => Ok(unmeant(first, Rule::N11, part, others)),
        Lookup::Nothing => Ok(unlisted(known, at, first, role, part, others)),
    }
}

fn nowhere() -> Place
    ensures { result ≡ nowhere }
{
    Place {
        file: 0,
        line: 0,
        column: 0,
    }
}

/// What is said of a designator.
pub fn designator(
    alloc: Global,
    known: &Known<'_>,
    at: Position,
    first: &mut Option<Break>,
    role: Role,
    list: &[Part],
) -> Result<Said, AllocError>
    ensures said { IfOk result (λ s. s ≡ designator_said (context_of known.now at) role (map part_of list.now)) }
    ensures noted { OnOk result (first.new ≡ noted first.old (designator_rows (context_of known.now at) role (map part_of list.now))) }
{
    match list {
        [part, others @ ..] => {
            let judged = meant(alloc, known, at, first, role, part, others)?;
            Ok(Said {
                place: part.name.place,
                lead: Some(part.name.symbol),
                has: judged.has,
                are_parts_typed: judged.are_parts_typed,
            })
        }
        [] => Ok(unnamed(nowhere(), false, None)),
    }
}
