//! CALL statements (12.4).

ghost use Rattle.std.specs.Prelude.{◌≡◌, OnOk, None, Some, [], ◌∷◌, map, if◌then◌else◌};
ghost use Rattle.std.specs.List.{flat_map};
ghost use Rattle.f3_tree.specs.Expressions.{argument_view};
ghost use Rattle.f3_tree.specs.Statements as tree;
ghost use Rattle.f3_rules.specs.declared.rule.Rule.TheVariants.{T9};
ghost use Rattle.f3_kinds.specs.Things as meant;
ghost use Rattle.f3_kinds.specs.Things.{map_or, at_place_of, nothing, entity_or, meaning_of};
ghost use Rattle.f3_kinds.specs.Rows.{at_name};
ghost use Rattle.f3_kinds.specs.Calls.{place_for};
ghost use Rattle.f3_type_rules.specs.Statements.{called_rows, act_breaks};
ghost use Rattle.f3_type_rules.specs.Definitions.{definition_rows, is_defining, value_given, arguments_defined, call_defined, defined};
ghost use Rattle.f3_typed_parts.specs.Known.{context_of, nature_of};
ghost use Rattle.f3_typed_parts.specs.Noted.{noted};
ghost use Rattle.f3_sites.specs.Sites.{site_of};

use crate::moving::move_allocation;
use f3_access::lookup;
use f3_definable::definable::definition;
use f3_kinds::said::Given;
use f3_kinds::things::{Dummy, Intrinsic, Thing};
use f3_lookups::lookup::Lookup;
use f3_references::arguments::{call, within_count};
use f3_rules::breaks::Break;
use f3_rules::rule::Rule;
use f3_sites::site::Site;
use f3_tree::declaration::Intent;
use f3_tree::expression::{Argument, Name};
use f3_typed_parts::known::{Known, Position};
use f3_typed_parts::noted::{at_name, note};
use f3_typing::typing::arguments;
use indexmap::IndexMap;
use std::alloc::{AllocError, Global};

/// The dummy that an argument is for, by its place.
fn place_for(dummies: &IndexMap<usize, Dummy>, position: usize, given: &Given) -> Option<usize>
    ensures { result ≡ place_for dummies.now.entries position given.now }
{
    match given {
        Given::Value(Some(keyword), _) => dummies.get_index_of(&keyword.symbol),
        Given::Value(None, _) => within_count(dummies.len(), position),
        Given::Triplet(_, _, _, _) => within_count(dummies.len(), position),
    }
}

fn dummy_at(dummies: &IndexMap<usize, Dummy>, place: usize) -> Option<Dummy>
    ensures { result ≡ at_place_of dummies.now.entries place }
{
    match dummies.get_index(place) {
        Some((_, dummy)) => Some(*dummy),
        None => None,
    }
}

fn dummy_for(dummies: &IndexMap<usize, Dummy>, place: Option<usize>) -> Option<Dummy>
    ensures { result ≡ map_or None (at_place_of dummies.now.entries) place }
{
    match place {
        Some(place) => dummy_at(dummies, place),
        None => None,
    }
}

/// Whether a dummy is INTENT(OUT) or INTENT(INOUT).
fn is_defining(dummy: Option<Dummy>) -> bool
    ensures { result ≡ is_defining dummy }
{
    match dummy {
        Some(dummy) => match dummy.intent {
            Some(Intent::In) => false,
            Some(Intent::Out) => true,
            Some(Intent::InOut) => true,
            None => false,
        },
        None => false,
    }
}

/// Notes where what is given may not be defined.
#[tactic(auto, using(f3_typed_parts::proofs::Noting::noted_none, crate::proofs::Rows::noted_one))]
fn value(site: &Site<'_>, first: &mut Option<Break>, given: &Given)
    ensures { first.new ≡ noted first.old (flat_map (definition_rows (site_of site.now)) (value_given given.now)) }
{
    match given {
        Given::Value(_, said) => definition(site, first, said),
        Given::Triplet(_, _, _, _) => {}
    }
}

/// Notes where an argument may not be defined, if its dummy is.
#[tactic(auto, using(f3_typed_parts::proofs::Noting::noted_none))]
fn argument(
    site: &Site<'_>,
    first: &mut Option<Break>,
    dummies: &IndexMap<usize, Dummy>,
    position: usize,
    given: &Given,
)
    ensures { first.new ≡ noted first.old (flat_map (definition_rows (site_of site.now)) (if is_defining (map_or None (at_place_of dummies.now.entries) (place_for dummies.now.entries position given.now)) then value_given given.now else [])) }
{
    let place = place_for(dummies, position, given);
    let dummy = dummy_for(dummies, place);
    if is_defining(dummy) {
        value(site, first, given);
    }
}

/// Notes where arguments may not be defined whose dummies are.
fn defined(
    site: &Site<'_>,
    first: &mut Option<Break>,
    dummies: &IndexMap<usize, Dummy>,
    given: &[Given],
)
    ensures { first.new ≡ noted first.old (flat_map (definition_rows (site_of site.now)) (arguments_defined dummies.now.entries 0 given.now)) }
{
    for position in 0..given.len() {
        let one = &given[position];
        argument(site, first, dummies, position, one);
    }
}

/// Notes where arguments may not be defined.
fn all_defined(site: &Site<'_>, first: &mut Option<Break>, given: &[Given])
    ensures { first.new ≡ noted first.old (flat_map (definition_rows (site_of site.now)) (flat_map value_given given.now)) }
{
    for one in given {
        value(site, first, one);
    }
}

/// Notes a name that is no subroutine.
fn wrong(first: &mut Option<Break>, name: Name) -> Result<(), AllocError>
    ensures { OnOk result (first.new ≡ noted first.old (at_name 6 T9 name ∷ [])) }
{
    note(first, at_name(6, Rule::T9, name));
    Ok(())
}

/// Notes what is wrong with a CALL of this entity; its breaks of phase 7 are noted apart.
#[tactic(auto, using(f3_typed_parts::proofs::Noting::noted_none))]
fn procedure(
    alloc: Global,
    site: &Site<'_>,
    first: &mut Option<Break>,
    later: &mut Option<Break>,
    name: Name,
    number: usize,
    thing: &Thing,
    given: &[Given],
) -> Result<(), AllocError>
    ensures noted { OnOk result (first.new ≡ noted first.old (called_rows (site_of site.now).context.moving name (entity_or number (Some (nature_of thing.now))) given.now)) }
    ensures defined { OnOk result (later.new ≡ noted later.old (flat_map (definition_rows (site_of site.now)) (call_defined (entity_or number (Some (nature_of thing.now))) given.now))) }
{
    match thing {
        Thing::Subroutine(signature) => {
            defined(site, later, &signature.dummies, given);
            call(alloc, first, name, &signature.dummies, given)
        }
        Thing::Constant(_) => wrong(first, name),
        Thing::Variable(_) => wrong(first, name),
        Thing::Type(_) => wrong(first, name),
        Thing::Function(_, _) => wrong(first, name),
    }
}

/// The intrinsic procedure that a name means where no entity has it.
fn intrinsic_of(known: &Known<'_>, at: Position, symbol: usize) -> Option<Intrinsic>
    ensures { result ≡ (context_of known.now at).intrinsic symbol }
{
    match known.intrinsics.get(symbol) {
        Some(intrinsic) => *intrinsic,
        None => None,
    }
}

/// Notes what is wrong with a CALL of an intrinsic procedure.
fn intrinsic(
    alloc: Global,
    first: &mut Option<Break>,
    name: Name,
    names: (usize, usize),
    intrinsic: Intrinsic,
    given: &[Given],
) -> Result<(), AllocError>
    ensures { OnOk result (first.new ≡ noted first.old (called_rows names name (meant.intrinsic intrinsic) given.now)) }
{
    match intrinsic {
        Intrinsic::MoveAlloc => move_allocation(alloc, first, name, names, given),
        Intrinsic::Abs => wrong(first, name),
        Intrinsic::Mod => wrong(first, name),
        Intrinsic::Modulo => wrong(first, name),
        Intrinsic::Max => wrong(first, name),
        Intrinsic::Min => wrong(first, name),
        Intrinsic::Size => wrong(first, name),
        Intrinsic::LowerBound => wrong(first, name),
        Intrinsic::UpperBound => wrong(first, name),
        Intrinsic::Allocated => wrong(first, name),
    }
}

/// Notes what is wrong with a CALL of a name that no entity has; its breaks of phase 7 are noted apart.
#[tactic(auto, using(f3_typed_parts::proofs::Noting::noted_none))]
fn unlisted(
    alloc: Global,
    site: &Site<'_>,
    first: &mut Option<Break>,
    later: &mut Option<Break>,
    name: Name,
    given: &[Given],
) -> Result<(), AllocError>
    ensures noted { OnOk result (first.new ≡ noted first.old (called_rows (site_of site.now).context.moving name (map_or nothing meant.intrinsic ((site_of site.now).context.intrinsic name.symbol)) given.now)) }
    ensures defined { OnOk result (later.new ≡ noted later.old (flat_map (definition_rows (site_of site.now)) (call_defined (map_or nothing meant.intrinsic ((site_of site.now).context.intrinsic name.symbol)) given.now))) }
{
    match intrinsic_of(&site.known, site.at, name.symbol) {
        Some(procedure) => {
            all_defined(site, later, given);
            intrinsic(alloc, first, name, site.known.moving, procedure, given)
        }
        None => {
            note(first, at_name(6, Rule::N10, name));
            Ok(())
        }
    }
}

/// Notes what is wrong with a CALL of what a name means; its breaks of phase 7 are noted apart.
#[tactic(auto, using(f3_typed_parts::proofs::Noting::noted_none))]
fn called(
    alloc: Global,
    site: &Site<'_>,
    first: &mut Option<Break>,
    later: &mut Option<Break>,
    name: Name,
    given: &[Given],
) -> Result<(), AllocError>
    ensures noted { OnOk result (first.new ≡ noted first.old (called_rows (site_of site.now).context.moving name (meaning_of (site_of site.now).context name.symbol) given.now)) }
    ensures defined { OnOk result (later.new ≡ noted later.old (flat_map (definition_rows (site_of site.now)) (call_defined (meaning_of (site_of site.now).context name.symbol) given.now))) }
{
    match lookup(site.known.tables, site.at.scope, name.symbol) {
        Lookup::One(number) => match site.known.things.get(number) {
            Some(thing) => procedure(alloc, site, first, later, name, number, thing, given),
            None => {
                note(first, at_name(6, Rule::N10, name));
                Ok(())
            }
        },
        Lookup::Several => {
            note(first, at_name(6, Rule::N11, name));
            Ok(())
        }
        Lookup::Nothing => unlisted(alloc, site, first, later, name, given),
    }
}

/// Notes the first break of phase 6 of a CALL (12.4), and apart the first one of phase 7 of the definition of its arguments. It fails
/// where memory runs out.
#[tactic(auto, using(f3_typed_parts::proofs::Noting::noted_more, f3_typing::proofs::Trees::arguments_same, f3_typing::proofs::Trees::arguments_breaks))]
pub fn subroutine(
    alloc: Global,
    site: &Site<'_>,
    first: &mut Option<Break>,
    later: &mut Option<Break>,
    name: Name,
    list: &[Argument],
) -> Result<(), AllocError>
    ensures noted { OnOk result (first.new ≡ noted first.old (act_breaks (site_of site.now).context (tree.call name (map argument_view list.now)))) }
    ensures defined { OnOk result (later.new ≡ noted later.old (flat_map (definition_rows (site_of site.now)) (defined (site_of site.now).context (tree.call name (map argument_view list.now))))) }
{
    let given = arguments(alloc, &site.known, site.at, first, list)?;
    called(alloc, site, first, later, name, &given)
}
