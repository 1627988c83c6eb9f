//! Arguments of procedures, and values of components (12.4.1, 4.5.9).

ghost use Rattle.std.specs.Prelude.{◌≡◌, map, IfOk};
ghost use Rattle.f3_kinds.specs.Things.{at_place_of};
ghost use Rattle.f3_elaboration.specs.Expressions as elaborated;
ghost use Rattle.f3_elaboration.specs.Nodes as nodes;
ghost use Rattle.f3_elaboration.specs.Views.{argument_view, arguments_of, designator_view, expression_view};
ghost use Rattle.f3_expression_parts.specs.Parts.{given_of};

use crate::given::Given;
use crate::selections::itself;
use f3_kinds::things::{Component, Dummy};
use f3_program::declarations::Constant;
use f3_program::expression::{Argument, Designator, Expression, Selection};
use indexmap::IndexMap;
use std::alloc::{AllocError, Global};

/// The value that is given; 0 in place of a triplet.
fn given_value(given: Given) -> Expression
    ensures { expression_view result ≡ elaborated.given_value (given_of given) }
{
    match given {
        Given::Value(_, x) => x,
        Given::Triplet(_, _, _) => Expression::Literal(Constant::Number(0)),
    }
}

fn value(alloc: Global, number: usize, x: Expression) -> Result<Argument, AllocError>
    ensures { IfOk result (λ y. argument_view y ≡ nodes.value number (expression_view x)) }
{
    Ok(Argument::Value(number, Box::new(alloc, x)?))
}

fn object(alloc: Global, number: usize, x: Designator) -> Result<Argument, AllocError>
    ensures { IfOk result (λ y. argument_view y ≡ nodes.object number (designator_view x)) }
{
    Ok(Argument::Variable(number, Box::new(alloc, x)?))
}

/// An argument for a dummy that is allocatable or not: a variable is passed itself, anything else by its value (12.4.1.2).
fn passed(
    alloc: Global,
    is_allocatable: bool,
    number: usize,
    x: Expression,
) -> Result<Argument, AllocError>
    ensures { IfOk result (λ y. argument_view y ≡ elaborated.passed is_allocatable number (expression_view x)) }
{
    match x {
        Expression::Variable(designator) => {
            if is_allocatable {
                let found = object(alloc, number, itself(Box::into_inner(designator)))?;
                Ok(found)
            } else {
                Ok(Argument::Variable(number, designator))
            }
        }
        x => {
            let found = value(alloc, number, x)?;
            Ok(found)
        }
    }
}

fn is_whole_allocatable(designator: &Designator) -> bool
    ensures { result ≡ elaborated.is_whole_allocatable (designator_view designator.now) }
{
    match designator {
        Designator::Name(_, Selection::Contents) => true,
        Designator::Component(_, _, Selection::Contents) => true,
        _ => false,
    }
}

/// A value for a component that is allocatable or not: for an allocatable one a whole allocatable itself (4.5.9, own rule).
fn stored(
    alloc: Global,
    is_allocatable: bool,
    number: usize,
    x: Expression,
) -> Result<Argument, AllocError>
    ensures { IfOk result (λ y. argument_view y ≡ elaborated.stored is_allocatable number (expression_view x)) }
{
    match x {
        Expression::Variable(designator) => {
            if is_allocatable && is_whole_allocatable(&designator) {
                let found = object(alloc, number, itself(Box::into_inner(designator)))?;
                Ok(found)
            } else {
                let found = value(alloc, number, Expression::Variable(designator))?;
                Ok(found)
            }
        }
        x => {
            let found = value(alloc, number, x)?;
            Ok(found)
        }
    }
}

/// The number of the dummy that is given, by its keyword or by its position.
fn dummy_for(dummies: &IndexMap<usize, Dummy>, position: usize, given: &Given) -> usize
    ensures { result ≡ elaborated.number_for dummies.now.entries position (given_of given.now) }
{
    match given {
        Given::Value(Some(keyword), _) => match dummies.get_index_of(&keyword.symbol) {
            Some(number) => number,
            None => 0,
        },
        Given::Value(None, _) => position,
        Given::Triplet(_, _, _) => position,
    }
}

/// Whether the dummy of a number is allocatable.
fn allocatable_dummy(dummies: &IndexMap<usize, Dummy>, number: usize) -> bool
    ensures { result ≡ elaborated.allocatable_dummy (at_place_of dummies.now.entries number) }
{
    match dummies.get_index(number) {
        Some((_, dummy)) => dummy.object.is_allocatable,
        None => false,
    }
}

fn argument_for(
    alloc: Global,
    dummies: &IndexMap<usize, Dummy>,
    position: usize,
    given: Given,
) -> Result<Argument, AllocError>
    ensures { IfOk result (λ y. argument_view y ≡ elaborated.passed_for dummies.now.entries (elaborated.number_for dummies.now.entries position (given_of given)) (elaborated.given_value (given_of given))) }
{
    let number = dummy_for(dummies, position, &given);
    let is_allocatable = allocatable_dummy(dummies, number);
    let found = passed(alloc, is_allocatable, number, given_value(given))?;
    Ok(found)
}

/// Arguments for these dummies, in the order written (12.4.1).
///
/// # Errors
///
/// Where memory runs out.
#[tactic(auto, using(crate::proofs::Lists::all_arguments))]
pub fn arguments_for(
    alloc: Global,
    dummies: &IndexMap<usize, Dummy>,
    given: Vec<Given>,
) -> Result<Vec<Argument>, AllocError>
    ensures { IfOk result (λ v. arguments_of (map argument_view v.items) ≡ elaborated.arguments_for dummies.now.entries 0 (map given_of given.items)) }
{
    let mut found = Vec::new(alloc);
    for given in given {
        let argument = argument_for(alloc, dummies, found.len(), given)?;
        found.push(argument)?;
    }
    Ok(found)
}

/// The number of the component that is given, by its keyword or by its position.
fn component_for(components: &IndexMap<usize, Component>, position: usize, given: &Given) -> usize
    ensures { result ≡ elaborated.number_for components.now.entries position (given_of given.now) }
{
    match given {
        Given::Value(Some(keyword), _) => match components.get_index_of(&keyword.symbol) {
            Some(number) => number,
            None => 0,
        },
        Given::Value(None, _) => position,
        Given::Triplet(_, _, _) => position,
    }
}

/// Whether the component of a number is allocatable.
fn allocatable_component(components: &IndexMap<usize, Component>, number: usize) -> bool
    ensures { result ≡ elaborated.allocatable_component (at_place_of components.now.entries number) }
{
    match components.get_index(number) {
        Some((_, component)) => component.object.is_allocatable,
        None => false,
    }
}

fn value_for(
    alloc: Global,
    components: &IndexMap<usize, Component>,
    position: usize,
    given: Given,
) -> Result<Argument, AllocError>
    ensures { IfOk result (λ y. argument_view y ≡ elaborated.stored_for components.now.entries (elaborated.number_for components.now.entries position (given_of given)) (elaborated.given_value (given_of given))) }
{
    let number = component_for(components, position, &given);
    let is_allocatable = allocatable_component(components, number);
    let found = stored(alloc, is_allocatable, number, given_value(given))?;
    Ok(found)
}

/// Values for these components, in the order written (4.5.9).
///
/// # Errors
///
/// Where memory runs out.
#[tactic(auto, using(crate::proofs::Lists::all_components))]
pub fn components_for(
    alloc: Global,
    components: &IndexMap<usize, Component>,
    given: Vec<Given>,
) -> Result<Vec<Argument>, AllocError>
    ensures { IfOk result (λ v. arguments_of (map argument_view v.items) ≡ elaborated.components_for components.now.entries 0 (map given_of given.items)) }
{
    let mut found = Vec::new(alloc);
    for given in given {
        let argument = value_for(alloc, components, found.len(), given)?;
        found.push(argument)?;
    }
    Ok(found)
}

/// An array that SIZE, LBOUND or UBOUND asks of (13.7).
///
/// # Errors
///
/// Where memory runs out.
pub fn asked(alloc: Global, x: Expression) -> Result<Argument, AllocError>
    ensures { IfOk result (λ y. argument_view y ≡ elaborated.asked (expression_view x)) }
{
    let found = passed(alloc, false, 0, x)?;
    Ok(found)
}
