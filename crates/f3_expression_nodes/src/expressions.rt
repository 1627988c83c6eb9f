//! Expressions, and the parts of designators.

ghost use Rattle.std.specs.Prelude.{◌≡◌, map, option_map, IfOk};
ghost use Rattle.f3_tree.specs.Expressions as tree;
ghost use Rattle.f3_elaboration.specs.Actions as actions;
ghost use Rattle.f3_elaboration.specs.Expressions as elaborated;
ghost use Rattle.f3_elaboration.specs.Views as views;
ghost use Rattle.f3_expression_nodes.specs.Inner.Lists as lists;
ghost use Rattle.f3_numbers.specs.Surroundings.{surroundings_of};
ghost use Rattle.f3_expression_parts.specs.Parts.{given_of, part_of};

use crate::chains::chained;
use crate::literals::{group, integer, item, truth};
use crate::types::{operand_kind, type_of, type_of_parts};
use f3_expression_parts::given::{Given, Part};
use f3_expression_parts::operators::{Operand, compared, denied, signed};
use f3_expression_parts::selections::named;
use f3_meant_nodes::meant::designated;
use f3_meant_nodes::values::no_value;
use f3_numbers::surroundings::Surroundings;
use f3_program::expression::{Argument, Designator, Expression};
use f3_tree::expression as tree;
use f3_tree::expression::{Name, Operator};
use std::alloc::{AllocError, Global};

/// An expression in the elaborated program (7.1).
///
/// # Errors
///
/// Where memory runs out.
#[cycle(expressions)]
pub fn expression(
    alloc: Global,
    from: Surroundings<'_>,
    e: &tree::Expression,
) -> Result<Expression, AllocError>
    ensures { IfOk result (λ x. views.expression_view x ≡ elaborated.expression (surroundings_of from.entry) (tree.expression_view e.now)) }
{
    match e {
        tree::Expression::Integer(_, literal) => Ok(integer(*literal)),
        tree::Expression::Truth(_, value) => Ok(truth(*value)),
        tree::Expression::Text(_, _) => Ok(no_value()),
        tree::Expression::Designator(list) => {
            let of = type_of_parts(alloc, from, list)?;
            let list = parts(alloc, from, list)?;
            designated(alloc, from, of, list)
        }
        tree::Expression::Group(_, inner) => {
            let inner = expression(alloc, from, inner)?;
            group(alloc, inner)
        }
        tree::Expression::Array(_, list) => {
            let list = items(alloc, from, list)?;
            Ok(Expression::Array(list))
        }
        tree::Expression::Signed(_, sign, inner) => {
            let of = type_of(alloc, from, inner)?;
            let inner = expression(alloc, from, inner)?;
            signed(alloc, from, *sign, of, inner)
        }
        tree::Expression::Not(_, inner) => {
            let inner = expression(alloc, from, inner)?;
            denied(alloc, inner)
        }
        tree::Expression::Comparison(left, relation, right) => {
            let left = expression(alloc, from, left)?;
            let right = expression(alloc, from, right)?;
            compared(alloc, *relation, left, right)
        }
        tree::Expression::Chain(first, others) => {
            let kind = operand_kind(alloc, from, first)?;
            let value = expression(alloc, from, first)?;
            let others = operands(alloc, from, others)?;
            let found = chained(alloc, from, Operand { value, kind }, others)?;
            Ok(found.value)
        }
    }
}

/// Operands, each behind its operator.
#[cycle(expressions)]
fn operands(
    alloc: Global,
    from: Surroundings<'_>,
    others: &[(Operator, tree::Expression)],
) -> Result<Vec<(Operator, Operand)>, AllocError>
    ensures { IfOk result (λ v. map lists.further_of v.items ≡ map (lists.further (surroundings_of from.entry)) others.now) }
{
    let mut found = Vec::new(alloc);
    for (operator, e) in others {
        let value = expression(alloc, from, e)?;
        let kind = operand_kind(alloc, from, e)?;
        found.push((*operator, Operand { value, kind }))?;
    }
    Ok(found)
}

/// The values of an array constructor (4.7).
#[cycle(expressions)]
fn items(
    alloc: Global,
    from: Surroundings<'_>,
    list: &[tree::Expression],
) -> Result<Vec<Argument>, AllocError>
    ensures { IfOk result (λ v. map views.argument_view v.items ≡ map (lists.item (surroundings_of from.entry)) list.now) }
{
    let mut found = Vec::new(alloc);
    for e in list {
        let value = expression(alloc, from, e)?;
        found.push(item(alloc, value)?)?;
    }
    Ok(found)
}

/// The parts of a designator (6.1.2).
///
/// # Errors
///
/// Where memory runs out.
#[cycle(expressions)]
pub fn parts(
    alloc: Global,
    from: Surroundings<'_>,
    list: &[(Name, Option<Vec<tree::Argument>>)],
) -> Result<Vec<Part>, AllocError>
    ensures { IfOk result (λ v. map part_of v.items ≡ elaborated.parts (surroundings_of from.entry) (tree.parts_list (map tree.part_view list.now))) }
{
    let mut found = Vec::new(alloc);
    for part in list {
        let given = behind(alloc, from, &part.1)?;
        found.push(Part {
            name: part.0,
            given,
        })?;
    }
    Ok(found)
}

/// What is given behind a name, where parentheses stand there.
#[cycle(expressions)]
fn behind(
    alloc: Global,
    from: Surroundings<'_>,
    list: &Option<Vec<tree::Argument>>,
) -> Result<Option<Vec<Given>>, AllocError>
    ensures { IfOk result (λ g. option_map (λ v. map given_of v.items) g ≡ elaborated.behind (surroundings_of from.entry) (tree.behind_list (option_map (λ v. map tree.argument_view v.items) list.now))) }
{
    match list {
        Some(list) => {
            let found = given(alloc, from, list)?;
            Ok(Some(found))
        }
        None => Ok(None),
    }
}

/// What is given in parentheses behind a name (6.2.2, 12.4).
///
/// # Errors
///
/// Where memory runs out.
#[cycle(expressions)]
pub fn given(
    alloc: Global,
    from: Surroundings<'_>,
    list: &[tree::Argument],
) -> Result<Vec<Given>, AllocError>
    ensures { IfOk result (λ v. map given_of v.items ≡ elaborated.given (surroundings_of from.entry) (tree.arguments_of (map tree.argument_view list.now))) }
{
    let mut found = Vec::new(alloc);
    for one in list {
        found.push(given_by(alloc, from, one)?)?;
    }
    Ok(found)
}

#[cycle(expressions)]
fn given_by(
    alloc: Global,
    from: Surroundings<'_>,
    one: &tree::Argument,
) -> Result<Given, AllocError>
    ensures { IfOk result (λ g. given_of g ≡ elaborated.given_by (surroundings_of from.entry) (tree.argument_view one.now)) }
{
    match one {
        tree::Argument::Value(keyword, e) => {
            let value = expression(alloc, from, e)?;
            Ok(Given::Value(*keyword, value))
        }
        tree::Argument::Triplet(_, first, last, stride) => {
            let first = perhaps(alloc, from, first)?;
            let last = perhaps(alloc, from, last)?;
            let stride = perhaps(alloc, from, stride)?;
            Ok(Given::Triplet(first, last, stride))
        }
    }
}

#[cycle(expressions)]
fn perhaps(
    alloc: Global,
    from: Surroundings<'_>,
    e: &Option<tree::Expression>,
) -> Result<Option<Expression>, AllocError>
    ensures { IfOk result (λ x. option_map views.expression_view x ≡ elaborated.perhaps (surroundings_of from.entry) (tree.perhaps_of (option_map tree.expression_view e.now))) }
{
    match e {
        Some(e) => {
            let found = expression(alloc, from, e)?;
            Ok(Some(found))
        }
        None => Ok(None),
    }
}

/// A variable where it is defined: of a whole allocatable what it holds (6.1, own rule).
///
/// # Errors
///
/// Where memory runs out.
pub fn variable(
    alloc: Global,
    from: Surroundings<'_>,
    list: &[(Name, Option<Vec<tree::Argument>>)],
) -> Result<Designator, AllocError>
    ensures { IfOk result (λ d. views.designator_view d ≡ actions.variable (surroundings_of from.entry) (tree.parts_list (map tree.part_view list.now))) }
{
    let of = type_of_parts(alloc, from, list)?;
    let list = parts(alloc, from, list)?;
    let found = designated(alloc, from, of, list)?;
    Ok(named(found))
}
