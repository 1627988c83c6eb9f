//! What operators make of their operands.

ghost use Rattle.std.specs.Prelude.{◌≡◌};
ghost use Rattle.std.specs.List.{list_all, flat_map};
ghost use Rattle.f3_kinds.specs.Rows.{fits, scalar_rows};
ghost use Rattle.f3_kinds.specs.Operands.{begun, unnamed, when_right, kind_of, widest, wanted_by, result_of, chain_said, chain_rows, comparison_said, signed_said, not_said, group_said, type_in, first_type, same_known, has_same, mixed_rows, array_rows, array_said};
ghost use Rattle.f3_typed_parts.specs.Noted.{noted};

use crate::noted::{at_place, note};
use crate::rows::{computed, fits, is_unbroken, same_type, scalar, wider};
use f3_kinds::said::{Form, Has, Said};
use f3_kinds::types::{DataType, Wanted};
use f3_places::source::Place;
use f3_rules::breaks::Break;
use f3_rules::rule::Rule;
use f3_tree::expression::{IntegerKind, Operator};

pub fn begun(said: &Said, are_parts_typed: bool, has: Option<Has>) -> Said
    ensures { result ≡ begun said.now are_parts_typed has }
{
    Said {
        place: said.place,
        lead: said.lead,
        has,
        are_parts_typed,
    }
}

pub fn unnamed(place: Place, are_parts_typed: bool, has: Option<Has>) -> Said
    ensures { result ≡ unnamed place are_parts_typed has }
{
    Said {
        place,
        lead: None,
        has,
        are_parts_typed,
    }
}

fn when_right(right: bool, has: Has) -> Option<Has>
    ensures { result ≡ when_right right has }
{
    if right { Some(has) } else { None }
}

fn kind_of(has: Option<Has>) -> IntegerKind
    ensures { result ≡ kind_of has }
{
    match has {
        Some(has) => match has.data_type {
            Some(DataType::Integer(kind)) => kind,
            Some(DataType::Logical) => IntegerKind::Four,
            Some(DataType::Derived(_)) => IntegerKind::Four,
            None => IntegerKind::Four,
        },
        None => IntegerKind::Four,
    }
}

/// What the operands of an operator have to be.
pub fn wanted_by(operator: Operator) -> Wanted
    ensures { result ≡ wanted_by operator }
{
    match operator {
        Operator::Power => Wanted::Integer,
        Operator::Multiply => Wanted::Integer,
        Operator::Divide => Wanted::Integer,
        Operator::Add => Wanted::Integer,
        Operator::Subtract => Wanted::Integer,
        Operator::And => Wanted::Logical,
        Operator::Or => Wanted::Logical,
        Operator::Equivalent => Wanted::Logical,
        Operator::NotEquivalent => Wanted::Logical,
    }
}

fn result_of(wanted: Wanted, kind: IntegerKind) -> Has
    ensures { result ≡ result_of wanted kind }
{
    match wanted {
        Wanted::Integer => computed(DataType::Integer(kind), 0),
        Wanted::Logical => computed(DataType::Logical, 0),
        Wanted::Intrinsic => computed(DataType::Logical, 0),
    }
}

fn widest(kind: IntegerKind, others: &[Said]) -> IntegerKind
    ensures { result ≡ widest kind others.now }
{
    let mut widest = kind;
    for other in others {
        widest = wider(widest, kind_of(other.has));
    }
    widest
}

pub fn all_fit(wanted: Wanted, others: &[Said]) -> bool
    ensures { result ≡ list_all (fits wanted) others.now }
{
    others.iter().all(|other| fits(wanted, other))
}

/// Operands of one level.
pub fn chain(wanted: Wanted, operand: &Said, others: &[Said]) -> Said
    ensures { result ≡ chain_said wanted operand.now others.now }
{
    let right = fits(wanted, operand) && all_fit(wanted, others);
    let kind = widest(kind_of(operand.has), others);
    begun(operand, right, when_right(right, result_of(wanted, kind)))
}

#[tactic(auto, using(crate::proofs::Noting::noted_more, crate::proofs::Noting::noted_none))]
pub fn scalars(first: &mut Option<Break>, wanted: Wanted, others: &[Said])
    ensures { first.new ≡ noted first.old (flat_map (scalar_rows wanted) others.now) }
{
    for other in others {
        scalar(first, wanted, other);
    }
}

/// Notes the operands of one level that are wrong.
#[tactic(auto, using(crate::proofs::Noting::noted_more))]
pub fn chain_rows(first: &mut Option<Break>, wanted: Wanted, operand: &Said, others: &[Said])
    ensures { first.new ≡ noted first.old (chain_rows wanted operand.now others.now) }
{
    scalar(first, wanted, operand);
    scalars(first, wanted, others);
}

pub fn comparison(left: &Said, right: &Said) -> Said
    ensures { result ≡ comparison_said left.now right.now }
{
    let fit = fits(Wanted::Integer, left) && fits(Wanted::Integer, right);
    begun(left, fit, when_right(fit, computed(DataType::Logical, 0)))
}

pub fn signed(place: Place, said: &Said) -> Said
    ensures { result ≡ signed_said place said.now }
{
    let fit = fits(Wanted::Integer, said);
    let kind = kind_of(said.has);
    unnamed(
        place,
        fit,
        when_right(fit, computed(DataType::Integer(kind), 0)),
    )
}

pub fn negation(place: Place, said: &Said) -> Said
    ensures { result ≡ not_said place said.now }
{
    let fit = fits(Wanted::Logical, said);
    unnamed(place, fit, when_right(fit, computed(DataType::Logical, 0)))
}

pub fn group(place: Place, said: &Said) -> Said
    ensures { result ≡ group_said place said.now }
{
    let has = match said.has {
        Some(has) => Some(Has {
            data_type: has.data_type,
            rank: has.rank,
            is_allocatable: false,
            form: Form::Computed,
        }),
        None => None,
    };
    unnamed(place, is_unbroken(said.has), has)
}

pub fn type_in(has: Option<Has>) -> Option<DataType>
    ensures { result ≡ type_in has }
{
    match has {
        Some(has) => has.data_type,
        None => None,
    }
}

fn first_type(items: &[Said]) -> Option<DataType>
    ensures { result ≡ first_type items.now }
{
    match items {
        [item, ..] => type_in(item.has),
        [] => None,
    }
}

/// Whether two types are the same, as far as both are known.
pub fn same_known(a: Option<DataType>, b: Option<DataType>) -> bool
    ensures { result ≡ same_known a b }
{
    match (a, b) {
        (Some(a), Some(b)) => same_type(a, b),
        (_, _) => true,
    }
}

pub fn has_same(data_type: Option<DataType>, said: &Said) -> bool
    ensures { result ≡ has_same data_type said.now }
{
    same_known(data_type, type_in(said.has))
}

#[tactic(auto, using(crate::proofs::Noting::noted_none))]
fn mixed(first: &mut Option<Break>, data_type: Option<DataType>, items: &[Said])
    ensures { first.new ≡ noted first.old (mixed_rows data_type items.now) }
{
    for item in items {
        if !has_same(data_type, item) {
            note(first, at_place(6, Rule::T6, item.place));
            return;
        }
    }
}

/// Notes what is wrong with the items of an array constructor.
#[tactic(auto, using(crate::proofs::Noting::noted_more, crate::proofs::Noting::noted_none))]
pub fn array_rows(first: &mut Option<Break>, items: &[Said])
    ensures { first.new ≡ noted first.old (array_rows items.now) }
{
    scalars(first, Wanted::Intrinsic, items);
    if all_fit(Wanted::Intrinsic, items) {
        mixed(first, first_type(items), items);
    }
}

fn all_same(data_type: Option<DataType>, items: &[Said]) -> bool
    ensures { result ≡ list_all (has_same data_type) items.now }
{
    items.iter().all(|item| has_same(data_type, item))
}

/// An array constructor of these items.
pub fn array(place: Place, items: &[Said]) -> Said
    ensures { result ≡ array_said place items.now }
{
    let data_type = first_type(items);
    let right = all_fit(Wanted::Intrinsic, items) && all_same(data_type, items);
    let has = match data_type {
        Some(data_type) => when_right(right, computed(data_type, 1)),
        None => None,
    };
    unnamed(place, right, has)
}
