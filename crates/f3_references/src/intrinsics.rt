//! References to intrinsic functions (13.7).

ghost use Rattle.std.specs.Prelude.{◌≡◌, ◌==◌, not, None, Some, true, false, slice_get, [], if◌then◌else◌};
ghost use Rattle.f3_rules.specs.declared.rule.Rule.TheVariants.{T8};
ghost use Rattle.f3_kinds.specs.declared.said.Has.{Has};
ghost use Rattle.f3_kinds.specs.declared.said.Form.TheVariants.{Computed};
ghost use Rattle.f3_kinds.specs.declared.types.Wanted.TheVariants as wanted;
ghost use Rattle.f3_kinds.specs.Things.{map_or};
ghost use Rattle.f3_kinds.specs.Rows.{unless, at_place, fits};
ghost use Rattle.f3_kinds.specs.Calls.{least_count, is_within, is_alike, actual_fits, actual_right, or_first, integer_type, actual_rows, no_breaks};
ghost use Rattle.f3_kinds.specs.Calls.{intrinsic_parts, intrinsic_rows, intrinsic_has, typed_result};
ghost use Rattle.f3_typed_parts.specs.Noted.{noted};

use crate::arguments::{both, given_place};
use crate::settling::settle;
use f3_kinds::said::{Form, Given, Has, Said};
use f3_kinds::things::Intrinsic;
use f3_kinds::types::{DataType, Wanted};
use f3_rules::breaks::Break;
use f3_rules::rule::Rule;
use f3_tree::expression::{IntegerKind, Name};
use f3_typed_parts::designators::{Judged, all_typed};
use f3_typed_parts::noted::{at_place, unless};
use f3_typed_parts::operands::{has_same, type_in};
use f3_typed_parts::rows::{fits, has_type};

fn least_count(intrinsic: Intrinsic) -> usize
    ensures { result ≡ least_count intrinsic }
{
    match intrinsic {
        Intrinsic::Abs => 1,
        Intrinsic::Size => 1,
        Intrinsic::Allocated => 1,
        Intrinsic::Mod => 2,
        Intrinsic::Modulo => 2,
        Intrinsic::Max => 2,
        Intrinsic::Min => 2,
        Intrinsic::LowerBound => 2,
        Intrinsic::UpperBound => 2,
        Intrinsic::MoveAlloc => 2,
    }
}

/// Whether an intrinsic function takes an argument at this position; MAX and MIN take any number.
fn is_within(intrinsic: Intrinsic, position: usize) -> bool
    ensures { result ≡ is_within intrinsic position }
{
    match intrinsic {
        Intrinsic::Abs => position < 1,
        Intrinsic::Allocated => position < 1,
        Intrinsic::Max => true,
        Intrinsic::Min => true,
        Intrinsic::Size => position < 2,
        Intrinsic::Mod => position < 2,
        Intrinsic::Modulo => position < 2,
        Intrinsic::LowerBound => position < 2,
        Intrinsic::UpperBound => position < 2,
        Intrinsic::MoveAlloc => position < 2,
    }
}

/// An integer of the kind of the first such argument (own rule).
fn is_alike(first: Option<DataType>, said: &Said) -> bool
    ensures { result ≡ is_alike first said.now }
{
    fits(Wanted::Integer, said) && has_same(first, said)
}

fn is_whole_allocatable(has: Option<Has>) -> bool
    ensures { result ≡ map_or false (λ (h : Has). h.is_allocatable) has }
{
    match has {
        Some(has) => has.is_allocatable,
        None => false,
    }
}

fn is_array(has: Option<Has>) -> bool
    ensures { result ≡ map_or false (λ (h : Has). not (h.rank == 0)) has }
{
    match has {
        Some(has) => has.rank != 0,
        None => false,
    }
}

/// An array, and behind it a dimension.
fn inquires(position: usize, said: &Said) -> bool
    ensures { result ≡ (if position == 0 then map_or false (λ (h : Has). not (h.rank == 0)) said.now.has else fits wanted.Integer said.now) }
{
    if position == 0 {
        is_array(said.has)
    } else {
        fits(Wanted::Integer, said)
    }
}

fn actual_fits(intrinsic: Intrinsic, first: Option<DataType>, position: usize, said: &Said) -> bool
    ensures { result ≡ actual_fits intrinsic first position said.now }
{
    match intrinsic {
        Intrinsic::Allocated => is_whole_allocatable(said.has),
        Intrinsic::Size => inquires(position, said),
        Intrinsic::LowerBound => inquires(position, said),
        Intrinsic::UpperBound => inquires(position, said),
        Intrinsic::Abs => fits(Wanted::Integer, said),
        Intrinsic::Mod => is_alike(first, said),
        Intrinsic::Modulo => is_alike(first, said),
        Intrinsic::Max => is_alike(first, said),
        Intrinsic::Min => is_alike(first, said),
        Intrinsic::MoveAlloc => is_alike(first, said),
    }
}

fn actual_right(
    intrinsic: Intrinsic,
    first: Option<DataType>,
    position: usize,
    given: &Given,
) -> bool
    ensures { result ≡ actual_right intrinsic first position given.now }
{
    match given {
        Given::Value(None, said) => {
            is_within(intrinsic, position)
                && (!has_type(said.has) || actual_fits(intrinsic, first, position, said))
        }
        Given::Value(Some(_), _) => false,
        Given::Triplet(_, _, _, _) => false,
    }
}

fn or_first(first: Option<DataType>, other: Option<DataType>) -> Option<DataType>
    ensures { result ≡ or_first first other }
{
    match first {
        Some(data_type) => Some(data_type),
        None => other,
    }
}

/// The type of an argument that is a scalar integer.
fn integer_type(given: &Given) -> Option<DataType>
    ensures { result ≡ integer_type given.now }
{
    match given {
        Given::Value(None, said) => {
            if fits(Wanted::Integer, said) {
                type_in(said.has)
            } else {
                None
            }
        }
        Given::Value(Some(_), _) => None,
        Given::Triplet(_, _, _, _) => None,
    }
}

/// Notes the arguments that are wrong.
fn actuals(first: &mut Option<Break>, intrinsic: Intrinsic, given: &[Given])
    ensures { first.new ≡ noted first.old (actual_rows intrinsic None 0 given.now) }
{
    let mut data_type = None;
    for position in 0..given.len() {
        let one = &given[position];
        let fit = actual_right(intrinsic, data_type, position, one);
        unless(first, fit, at_place(6, Rule::T8, given_place(one)));
        data_type = or_first(data_type, integer_type(one));
    }
}

/// Notes the arguments that are wrong, and says whether none is.
#[tactic(auto, using(crate::proofs::Apart::settled, crate::proofs::Apart::settled_none))]
fn actuals_right(first: &mut Option<Break>, intrinsic: Intrinsic, given: &[Given]) -> bool
    ensures right { result ≡ no_breaks (actual_rows intrinsic None 0 given.now) }
    ensures noted { first.new ≡ noted first.old (actual_rows intrinsic None 0 given.now) }
{
    let mut met = None;
    actuals(&mut met, intrinsic, given);
    settle(first, met)
}

fn typed_result(intrinsic: Intrinsic, given: &[Given]) -> Option<DataType>
    ensures { result ≡ typed_result intrinsic given.now }
{
    match intrinsic {
        Intrinsic::Allocated => Some(DataType::Logical),
        Intrinsic::Size => Some(DataType::Integer(IntegerKind::Four)),
        Intrinsic::LowerBound => Some(DataType::Integer(IntegerKind::Four)),
        Intrinsic::UpperBound => Some(DataType::Integer(IntegerKind::Four)),
        Intrinsic::Abs => leading_type(given),
        Intrinsic::Mod => leading_type(given),
        Intrinsic::Modulo => leading_type(given),
        Intrinsic::Max => leading_type(given),
        Intrinsic::Min => leading_type(given),
        Intrinsic::MoveAlloc => leading_type(given),
    }
}

fn leading_type(actuals: &[Given]) -> Option<DataType>
    ensures { result ≡ map_or None integer_type (slice_get actuals.now 0) }
{
    match actuals.get(0) {
        Some(one) => integer_type(one),
        None => None,
    }
}

fn intrinsic_result(right: bool, intrinsic: Intrinsic, given: &[Given]) -> Option<Has>
    ensures { result ≡ (if right then Some record { data_type = typed_result intrinsic given.now; rank = 0; is_allocatable = false; form = Computed } else None) }
{
    if right {
        Some(Has {
            data_type: typed_result(intrinsic, given),
            rank: 0,
            is_allocatable: false,
            form: Form::Computed,
        })
    } else {
        None
    }
}

/// Notes that arguments are lacking, where those that are there are right.
#[tactic(auto, using(f3_typed_parts::proofs::Noting::noted_none))]
fn lacking(first: &mut Option<Break>, right: bool, enough: bool, name: Name)
    ensures { first.new ≡ noted first.old (if right then unless enough (at_place 6 T8 name.place) else []) }
{
    if right {
        unless(first, enough, at_place(6, Rule::T8, name.place));
    }
}

/// A reference to an intrinsic function.
#[tactic(auto, using(f3_typed_parts::proofs::Noting::noted_more))]
pub fn intrinsic_function(
    first: &mut Option<Break>,
    name: Name,
    intrinsic: Intrinsic,
    given: &[Given],
) -> Judged
    ensures typed { result.are_parts_typed ≡ intrinsic_parts intrinsic given.now }
    ensures has { result.has ≡ intrinsic_has intrinsic given.now }
    ensures noted { first.new ≡ noted first.old (intrinsic_rows name intrinsic given.now) }
{
    let fit = actuals_right(first, intrinsic, given);
    let right = both(all_typed(given), fit);
    let enough = !(given.len() < least_count(intrinsic));
    lacking(first, right, enough, name);
    Judged {
        are_parts_typed: right,
        has: intrinsic_result(both(right, enough), intrinsic, given),
    }
}
