//! What is said of expressions, bottom up.

ghost use Rattle.std.specs.Prelude.{◌≡◌, Some, None, map, option_map, IfOk, OnOk};
ghost use Rattle.std.specs.List.{flat_map};
ghost use Rattle.f3_tree.specs.Expressions.{expression_view, argument_view, rest_of, perhaps_of};
ghost use Rattle.f3_scopes.specs.Names.{operand_view};
ghost use Rattle.f3_kinds.specs.Rows.{literal_kind};
ghost use Rattle.f3_kinds.specs.Typing.{said, said_parts, said_argument, said_perhaps, breaks, breaks_parts, breaks_argument, breaks_perhaps, level_of};
ghost use Rattle.f3_typed_parts.specs.Known.{context_of, part_of};
ghost use Rattle.f3_typing.specs.Lists.{said_item, breaks_item, said_operand, breaks_operand, said_given, breaks_given, said_part, breaks_part, parts_in};
ghost use Rattle.f3_typed_parts.specs.Noted.{noted};

use crate::senses::designator;
use f3_kinds::said::{Given, Role, Said};
use f3_kinds::types::{DataType, Wanted};
use f3_rules::breaks::Break;
use f3_rules::rule::Rule;
use f3_tree::expression::{Argument, Expression, IntegerKind, IntegerLiteral, Name, Operator};
use f3_typed_parts::known::{Known, Part, Position};
use f3_typed_parts::noted::{at_place, note};
use f3_typed_parts::operands::{
    array, array_rows, chain, chain_rows, comparison, group, negation, signed, unnamed, wanted_by,
};
use f3_typed_parts::rows::{computed, scalar};
use std::alloc::{AllocError, Global};

/// What is said of an expression; its first break is noted.
#[cycle(typing)]
#[tactic(auto, using(f3_typed_parts::proofs::Noting::noted_more, f3_typed_parts::proofs::Noting::noted_none))]
pub fn expression(
    alloc: Global,
    known: &Known<'_>,
    at: Position,
    first: &mut Option<Break>,
    e: &Expression,
) -> Result<Said, AllocError>
    ensures said { IfOk result (λ s. s ≡ said (context_of known.now at) (expression_view e.now)) }
    ensures noted { OnOk result (first.new ≡ noted first.old (breaks (context_of known.now at) (expression_view e.now))) }
{
    match e {
        Expression::Integer(place, literal) => {
            let has = computed(DataType::Integer(literal_kind(*literal)), 0);
            Ok(unnamed(*place, true, Some(has)))
        }
        Expression::Truth(place, _) => {
            Ok(unnamed(*place, true, Some(computed(DataType::Logical, 0))))
        }
        Expression::Text(place, _) => {
            note(first, at_place(6, Rule::T6, *place));
            Ok(unnamed(*place, true, None))
        }
        Expression::Designator(_) => {
            let list = parts(alloc, known, at, first, e)?;
            let said = designator(alloc, known, at, first, Role::Expression, &list)?;
            Ok(said)
        }
        Expression::Group(place, inner) => {
            let inner = expression(alloc, known, at, first, inner)?;
            Ok(group(*place, &inner))
        }
        Expression::Array(place, items) => {
            let items = all(alloc, known, at, first, items)?;
            array_rows(first, &items);
            Ok(array(*place, &items))
        }
        Expression::Signed(place, _, inner) => {
            let inner = expression(alloc, known, at, first, inner)?;
            scalar(first, Wanted::Integer, &inner);
            Ok(signed(*place, &inner))
        }
        Expression::Not(place, inner) => {
            let inner = expression(alloc, known, at, first, inner)?;
            scalar(first, Wanted::Logical, &inner);
            Ok(negation(*place, &inner))
        }
        Expression::Comparison(left, _, right) => {
            let left = expression(alloc, known, at, first, left)?;
            let right = expression(alloc, known, at, first, right)?;
            scalar(first, Wanted::Integer, &left);
            scalar(first, Wanted::Integer, &right);
            Ok(comparison(&left, &right))
        }
        Expression::Chain(operand, others) => {
            let wanted = level(others);
            let operand = expression(alloc, known, at, first, operand)?;
            let others = rest(alloc, known, at, first, others)?;
            chain_rows(first, wanted, &operand, &others);
            Ok(chain(wanted, &operand, &others))
        }
    }
}

fn literal_kind(literal: IntegerLiteral) -> IntegerKind
    ensures { result ≡ literal_kind literal }
{
    match literal {
        IntegerLiteral::Four(_) => IntegerKind::Four,
        IntegerLiteral::Eight(_) => IntegerKind::Eight,
    }
}

/// What the operands of a level have to be.
fn level(others: &[(Operator, Expression)]) -> Wanted
    ensures { result ≡ level_of (rest_of (map operand_view others.now)) }
{
    match others {
        [other, ..] => wanted_by(other.0),
        [] => Wanted::Integer,
    }
}

#[cycle(typing)]
fn rest(
    alloc: Global,
    known: &Known<'_>,
    at: Position,
    first: &mut Option<Break>,
    others: &[(Operator, Expression)],
) -> Result<Vec<Said>, AllocError>
    ensures said { IfOk result (λ v. v.items ≡ map (said_operand (context_of known.now at)) others.now) }
    ensures noted { OnOk result (first.new ≡ noted first.old (flat_map (breaks_operand (context_of known.now at)) others.now)) }
{
    let mut saids = Vec::new(alloc);
    for (_, e) in others {
        saids.push(expression(alloc, known, at, first, e)?)?;
    }
    Ok(saids)
}

#[cycle(typing)]
fn all(
    alloc: Global,
    known: &Known<'_>,
    at: Position,
    first: &mut Option<Break>,
    items: &[Expression],
) -> Result<Vec<Said>, AllocError>
    ensures said { IfOk result (λ v. v.items ≡ map (said_item (context_of known.now at)) items.now) }
    ensures noted { OnOk result (first.new ≡ noted first.old (flat_map (breaks_item (context_of known.now at)) items.now)) }
{
    let mut saids = Vec::new(alloc);
    for e in items {
        saids.push(expression(alloc, known, at, first, e)?)?;
    }
    Ok(saids)
}

/// What is said of what stands behind the parts of a designator.
#[cycle(typing)]
#[tactic(auto, using(f3_typed_parts::proofs::Noting::noted_none))]
fn parts(
    alloc: Global,
    known: &Known<'_>,
    at: Position,
    first: &mut Option<Break>,
    e: &Expression,
) -> Result<Vec<Part>, AllocError>
    ensures said { IfOk result (λ v. map part_of v.items ≡ said_parts (context_of known.now at) (parts_in (expression_view e.now))) }
    ensures noted { OnOk result (first.new ≡ noted first.old (breaks_parts (context_of known.now at) (parts_in (expression_view e.now)))) }
{
    let mut done = Vec::new(alloc);
    match e {
        Expression::Designator(list) => {
            for part in list {
                if let Some(list) = &part.1 {
                    let given = arguments(alloc, known, at, first, list)?;
                    done.push(with_given(part.0, given))?;
                    continue;
                }
                done.push(alone(part.0))?;
            }
            Ok(done)
        }
        Expression::Integer(_, _) => Ok(done),
        Expression::Truth(_, _) => Ok(done),
        Expression::Text(_, _) => Ok(done),
        Expression::Group(_, _) => Ok(done),
        Expression::Array(_, _) => Ok(done),
        Expression::Signed(_, _, _) => Ok(done),
        Expression::Not(_, _) => Ok(done),
        Expression::Comparison(_, _, _) => Ok(done),
        Expression::Chain(_, _) => Ok(done),
    }
}

pub fn with_given(name: Name, given: Vec<Given>) -> Part
    ensures { part_of result ≡ (name, Some given.items) }
{
    Part {
        name,
        given: Some(given),
    }
}

pub fn alone(name: Name) -> Part
    ensures { part_of result ≡ (name, None) }
{
    Part { name, given: None }
}

/// What is said of arguments, subscripts or values.
#[cycle(typing)]
pub fn arguments(
    alloc: Global,
    known: &Known<'_>,
    at: Position,
    first: &mut Option<Break>,
    list: &[Argument],
) -> Result<Vec<Given>, AllocError>
    ensures said { IfOk result (λ v. v.items ≡ map (said_given (context_of known.now at)) list.now) }
    ensures noted { OnOk result (first.new ≡ noted first.old (flat_map (breaks_given (context_of known.now at)) list.now)) }
{
    let mut given = Vec::new(alloc);
    for one in list {
        given.push(argument(alloc, known, at, first, one)?)?;
    }
    Ok(given)
}

#[cycle(typing)]
#[tactic(auto, using(f3_typed_parts::proofs::Noting::noted_more))]
fn argument(
    alloc: Global,
    known: &Known<'_>,
    at: Position,
    first: &mut Option<Break>,
    one: &Argument,
) -> Result<Given, AllocError>
    ensures said { IfOk result (λ g. g ≡ said_argument (context_of known.now at) (argument_view one.now)) }
    ensures noted { OnOk result (first.new ≡ noted first.old (breaks_argument (context_of known.now at) (argument_view one.now))) }
{
    match one {
        Argument::Value(keyword, e) => {
            let said = expression(alloc, known, at, first, e)?;
            Ok(Given::Value(*keyword, said))
        }
        Argument::Triplet(place, from, to, stride) => {
            let from = perhaps(alloc, known, at, first, from)?;
            let to = perhaps(alloc, known, at, first, to)?;
            let stride = perhaps(alloc, known, at, first, stride)?;
            Ok(Given::Triplet(*place, from, to, stride))
        }
    }
}

#[cycle(typing)]
#[tactic(auto, using(f3_typed_parts::proofs::Noting::noted_none))]
fn perhaps(
    alloc: Global,
    known: &Known<'_>,
    at: Position,
    first: &mut Option<Break>,
    e: &Option<Expression>,
) -> Result<Option<Said>, AllocError>
    ensures said { IfOk result (λ s. s ≡ said_perhaps (context_of known.now at) (perhaps_of (option_map expression_view e.now))) }
    ensures noted { OnOk result (first.new ≡ noted first.old (breaks_perhaps (context_of known.now at) (perhaps_of (option_map expression_view e.now)))) }
{
    match e {
        Some(e) => Ok(Some(expression(alloc, known, at, first, e)?)),
        None => Ok(None),
    }
}
