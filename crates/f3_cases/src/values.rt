//! The values of CASE statements, each by itself.

ghost use Rattle.std.specs.Prelude.{◌≡◌, ◌++◌, map, IfOk, OnOk};
ghost use Rattle.std.specs.List.{flat_map};
ghost use Rattle.f3_tree.specs.Expressions.{expression_view};
ghost use Rattle.f3_kinds.specs.Typing.{said};
ghost use Rattle.f3_type_rules.specs.Constants.{may_speak, speaks, constant_rows};
ghost use Rattle.f3_type_rules.specs.Cases.{selected_type, of_type, case_value};
ghost use Rattle.f3_typed_parts.specs.Known.{context_of};
ghost use Rattle.f3_typed_parts.specs.Noted.{noted};
ghost use Rattle.f3_cases.specs.Inner.Spans.{held_view, held_value, value_rows};

use crate::spans::{Held, from_span, one_span, range_span, up_to_span};
use f3_kinds::said::{Has, Said};
use f3_kinds::types::{DataType, Scalar, Wanted};
use f3_places::source::Place;
use f3_rules::breaks::Break;
use f3_rules::rule::Rule;
use f3_tree::expression::Expression;
use f3_tree::statement::CaseValue;
use f3_typed_parts::known::{Known, Position};
use f3_typed_parts::noted::{at_place, unless};
use f3_typed_parts::operands::type_in;
use f3_typed_parts::rows::fits;
use f3_typing::typing::expression;
use f3_values::scalars::{has_value, is_number};
use f3_values::values::value;
use std::alloc::{AllocError, Global};

/// The type that the values have to have, where the selector has one.
pub fn selected_type(said: &Said) -> Option<DataType>
    ensures { result ≡ selected_type said.now }
{
    if fits(Wanted::Intrinsic, said) {
        type_in(said.has)
    } else {
        None
    }
}

fn of_type(data_type: Option<DataType>, value: Option<Scalar>) -> Option<Scalar>
    ensures { result ≡ of_type data_type value }
{
    match (data_type, value) {
        (Some(DataType::Integer(_)), Some(Scalar::Truth(_))) => None,
        (Some(DataType::Logical), Some(Scalar::Number(_, _))) => None,
        (_, _) => value,
    }
}

fn case_value(
    known: &Known<'_>,
    at: Position,
    data_type: Option<DataType>,
    e: &Expression,
) -> Option<Scalar>
    ensures { result ≡ case_value (context_of known.now at) data_type (expression_view e.now) }
{
    of_type(data_type, value(known, at, e))
}

fn may_speak(are_parts_typed: bool, has: Option<Has>) -> bool
    ensures { result ≡ may_speak are_parts_typed has }
{
    match has {
        Some(has) => has.data_type.is_some(),
        None => are_parts_typed,
    }
}

/// Whether a rule may speak of a whole expression.
fn speaks(said: &Said) -> bool
    ensures { result ≡ speaks said.now }
{
    may_speak(said.are_parts_typed, said.has)
}

/// Notes the first break of an expression that has to be a constant. Gives its place.
#[tactic(auto, using(f3_typed_parts::proofs::Noting::noted_more))]
fn constant(
    alloc: Global,
    known: &Known<'_>,
    at: Position,
    first: &mut Option<Break>,
    is_right: bool,
    e: &Expression,
) -> Result<Place, AllocError>
    ensures place { IfOk result (λ p. p ≡ (said (context_of known.now at) (expression_view e.now)).place) }
    ensures noted { OnOk result (first.new ≡ noted first.old (constant_rows 6 (context_of known.now at) is_right (expression_view e.now))) }
{
    let said = expression(alloc, known, at, first, e)?;
    let speaks = speaks(&said);
    unless(
        first,
        !speaks || is_right,
        at_place(6, Rule::T2, said.place),
    );
    Ok(said.place)
}

/// Notes the first break of a value, and says what it holds.
#[tactic(auto, using(f3_typed_parts::proofs::Noting::noted_more))]
fn held(
    alloc: Global,
    known: &Known<'_>,
    at: Position,
    first: &mut Option<Break>,
    data_type: Option<DataType>,
    case: &CaseValue,
) -> Result<Held, AllocError>
    ensures held { IfOk result (λ h. held_view h ≡ held_value (context_of known.now at) data_type case.now) }
    ensures noted { OnOk result (first.new ≡ noted first.old (value_rows (context_of known.now at) data_type case.now)) }
{
    match case {
        CaseValue::Value(e) => {
            let value = case_value(known, at, data_type, e);
            let place = constant(alloc, known, at, first, has_value(value), e)?;
            Ok(Held {
                span: one_span(value),
                place,
            })
        }
        CaseValue::From(e) => {
            let value = case_value(known, at, data_type, e);
            let place = constant(alloc, known, at, first, is_number(value), e)?;
            Ok(Held {
                span: from_span(value),
                place,
            })
        }
        CaseValue::UpTo(place, e) => {
            let value = case_value(known, at, data_type, e);
            constant(alloc, known, at, first, is_number(value), e)?;
            Ok(Held {
                span: up_to_span(value),
                place: *place,
            })
        }
        CaseValue::Range(low, high) => {
            let least = case_value(known, at, data_type, low);
            let greatest = case_value(known, at, data_type, high);
            let place = constant(alloc, known, at, first, is_number(least), low)?;
            constant(alloc, known, at, first, has_value(greatest), high)?;
            Ok(Held {
                span: range_span(least, greatest),
                place,
            })
        }
    }
}

/// Notes the first break of the values of a CASE statement, and appends what they hold.
pub fn hold_all(
    alloc: Global,
    known: &Known<'_>,
    at: Position,
    first: &mut Option<Break>,
    data_type: Option<DataType>,
    all: &mut Vec<Held>,
    cases: &[CaseValue],
) -> Result<(), AllocError>
    ensures held { OnOk result (map held_view all.new.items ≡ map held_view all.old.items ++ map (held_value (context_of known.now at) data_type) cases.now) }
    ensures noted { OnOk result (first.new ≡ noted first.old (flat_map (value_rows (context_of known.now at) data_type) cases.now)) }
{
    for case in cases {
        all.push(held(alloc, known, at, first, data_type, case)?)?;
    }
    Ok(())
}
