//! Elements of arrays, and allocatables themselves or what they hold (6.1, 6.2).

ghost use Rattle.std.specs.Prelude.{◌≡◌, map, option_map, IfOk};
ghost use Rattle.f3_elaboration.specs.Actions as actions;
ghost use Rattle.f3_elaboration.specs.Expressions as elaborated;
ghost use Rattle.f3_elaboration.specs.Views.{expression_view, designator_view, selection_view, subscript_view, subscripts_of};
ghost use Rattle.f3_expression_parts.specs.Parts.{given_of};

use crate::given::Given;
use f3_kinds::types::Object;
use f3_program::declarations::Constant;
use f3_program::expression::{Designator, Expression, Name, Selection, Subscript};
use std::alloc::{AllocError, Global};

/// 1 where none is written.
fn or_one(x: Option<Expression>) -> Expression
    ensures { expression_view result ≡ elaborated.or_one (option_map expression_view x) }
{
    match x {
        Some(x) => x,
        None => Expression::Literal(Constant::Number(1)),
    }
}

fn triplet(
    alloc: Global,
    first: Option<Expression>,
    last: Option<Expression>,
    stride: Option<Expression>,
) -> Result<Subscript, AllocError>
    ensures { IfOk result (λ s. subscript_view s ≡ elaborated.subscript (elaborated.triplet (option_map expression_view first) (option_map expression_view last) (option_map expression_view stride))) }
{
    let has_first = first.is_some();
    let has_last = last.is_some();
    let first = Box::new(alloc, or_one(first))?;
    let last = Box::new(alloc, or_one(last))?;
    let stride = Box::new(alloc, or_one(stride))?;
    Ok(Subscript::Range(has_first, first, has_last, last, stride))
}

fn subscript(alloc: Global, given: Given) -> Result<Subscript, AllocError>
    ensures { IfOk result (λ s. subscript_view s ≡ elaborated.subscript (given_of given)) }
{
    match given {
        Given::Value(_, x) => Ok(Subscript::At(Box::new(alloc, x)?)),
        Given::Triplet(first, last, stride) => {
            let found = triplet(alloc, first, last, stride)?;
            Ok(found)
        }
    }
}

#[tactic(auto, using(crate::proofs::Lists::all_subscripts))]
fn subscripts(alloc: Global, given: Vec<Given>) -> Result<Vec<Subscript>, AllocError>
    ensures { IfOk result (λ v. subscripts_of (map subscript_view v.items) ≡ elaborated.subscripts (map given_of given.items)) }
{
    let mut found = Vec::new(alloc);
    for given in given {
        found.push(subscript(alloc, given)?)?;
    }
    Ok(found)
}

/// What of an object is meant, by what is given behind it: elements, or all of it, of an allocatable what it holds (6.2).
///
/// # Errors
///
/// Where memory runs out.
pub fn selection(
    alloc: Global,
    object: Object,
    given: Option<Vec<Given>>,
) -> Result<Selection, AllocError>
    ensures { IfOk result (λ y. selection_view y ≡ elaborated.selection object (option_map (λ v. map given_of v.items) given)) }
{
    match given {
        Some(given) => {
            let found = subscripts(alloc, given)?;
            Ok(Selection::Elements(object.is_allocatable, found))
        }
        None => {
            if object.is_allocatable {
                Ok(Selection::Contents)
            } else {
                Ok(Selection::Whole)
            }
        }
    }
}

fn unheld(selection: Selection) -> Selection
    ensures { selection_view result ≡ elaborated.unheld (selection_view selection) }
{
    match selection {
        Selection::Whole => Selection::Whole,
        Selection::Contents => Selection::Whole,
        Selection::Elements(is_opened, subscripts) => Selection::Elements(is_opened, subscripts),
    }
}

/// An allocatable itself, where what it holds was meant; any other variable as it is.
pub fn itself(designator: Designator) -> Designator
    ensures { designator_view result ≡ elaborated.itself (designator_view designator) }
{
    match designator {
        Designator::Name(name, selection) => Designator::Name(name, unheld(selection)),
        Designator::Component(outer, number, selection) => {
            Designator::Component(outer, number, unheld(selection))
        }
    }
}

/// The variable that an expression is.
pub fn named(x: Expression) -> Designator
    ensures { designator_view result ≡ actions.named_by (expression_view x) }
{
    match x {
        Expression::Variable(designator) => Box::into_inner(designator),
        _ => Designator::Name(Name::Local(0), Selection::Whole),
    }
}
