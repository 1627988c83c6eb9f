//! Objects of an ALLOCATE or a DEALLOCATE (6.3.1, 6.3.3).

ghost use Rattle.std.specs.Prelude.{◌≡◌, map, option_map, IfOk};
ghost use Rattle.f3_tree.specs.Expressions as tree;
ghost use Rattle.f3_kinds.specs.Typing as typing;
ghost use Rattle.f3_elaboration.specs.Actions as elaborated;
ghost use Rattle.f3_elaboration.specs.Views as views;
ghost use Rattle.f3_numbers.specs.Surroundings.{surroundings_of};
ghost use Rattle.f3_typed_parts.specs.Known.{context_of, part_of as typed_part};
ghost use Rattle.f3_typing.specs.Lists.{said_part};
ghost use Rattle.f3_expression_parts.specs.Parts.{given_of, part_of};
ghost use Rattle.f3_action_nodes.specs.Inner.Unbounded.{unbound};

use crate::kinds::kind_by;
use crate::values::{one, or_one};
use f3_expression_nodes::expressions::{parts, variable};
use f3_expression_parts::given::{Given, Part};
use f3_expression_parts::selections::{itself, named};
use f3_kinds::said::{Has, Role};
use f3_meant_nodes::meant::designated;
use f3_meant_nodes::values::given_in;
use f3_numbers::surroundings::Surroundings;
use f3_program::expression::Designator;
use f3_program::statement::{Bounds, Request};
use f3_tree::expression::{Argument, Name};
use f3_typed_parts::known as typed;
use f3_typed_parts::known::{Known, Position};
use f3_typed_parts::operands::type_in;
use f3_typing::senses::designator;
use f3_typing::typing::{alone, arguments, with_given};
use std::alloc::{AllocError, Global};

/// What is said of what stands behind a part.
fn said_part(
    alloc: Global,
    known: &Known<'_>,
    at: Position,
    name: Name,
    behind: &Option<Vec<Argument>>,
) -> Result<typed::Part, AllocError>
    ensures { IfOk result (λ p. typed_part p ≡ said_part (context_of known.now at) (name, behind.now)) }
{
    match behind {
        Some(list) => {
            let mut first = None;
            let given = arguments(alloc, known, at, &mut first, list)?;
            Ok(with_given(name, given))
        }
        None => Ok(alone(name)),
    }
}

/// What is said of what stands behind each part.
fn said_parts(
    alloc: Global,
    known: &Known<'_>,
    at: Position,
    list: &[(Name, Option<Vec<Argument>>)],
) -> Result<Vec<typed::Part>, AllocError>
    ensures { IfOk result (λ v. map typed_part v.items ≡ map (said_part (context_of known.now at)) list.now) }
{
    let mut done = Vec::new(alloc);
    for one in list {
        done.push(said_part(alloc, known, at, one.0, &one.1)?)?;
    }
    Ok(done)
}

/// What is said of the parts of an object, without the bounds behind it.
fn unbounded_parts(
    alloc: Global,
    known: &Known<'_>,
    at: Position,
    list: &[(Name, Option<Vec<Argument>>)],
) -> Result<Vec<typed::Part>, AllocError>
    ensures { IfOk result (λ v. map typed_part v.items ≡ typing.said_parts (context_of known.now at) (elaborated.unbounded (tree.parts_list (map tree.part_view list.now)))) }
{
    match list.split_last() {
        Some((last, before)) => {
            let mut found = said_parts(alloc, known, at, before)?;
            found.push(alone(last.0))?;
            Ok(found)
        }
        None => Ok(Vec::new(alloc)),
    }
}

/// What an object has without the bounds behind it.
fn unbounded_has(
    alloc: Global,
    known: &Known<'_>,
    at: Position,
    list: &[(Name, Option<Vec<Argument>>)],
) -> Result<Option<Has>, AllocError>
    ensures { IfOk result (λ h. h ≡ (typing.said (context_of known.now at) (tree.designator (elaborated.unbounded (tree.parts_list (map tree.part_view list.now))))).has) }
{
    let list = unbounded_parts(alloc, known, at, list)?;
    let mut first = None;
    let said = designator(alloc, known, at, &mut first, Role::Expression, &list);
    drop(list);
    Ok(said?.has)
}

/// The parts without what is given behind the last, and what was given there.
fn unbound(alloc: Global, mut parts: Vec<Part>) -> Result<(Vec<Part>, Vec<Given>), AllocError>
    ensures before { IfOk result (λ p. map part_of p.0.items ≡ unbound (map part_of parts.items)) }
    ensures behind { IfOk result (λ p. map given_of p.1.items ≡ elaborated.last_given (map part_of parts.items)) }
{
    match parts.pop() {
        Some(last) => {
            let name = last.name;
            let given = given_in(alloc, last);
            parts.push(Part { name, given: None })?;
            Ok((parts, given))
        }
        None => Ok((parts, Vec::new(alloc))),
    }
}

/// The bounds of a dimension; a lower bound that is not written is 1 (6.3.1.1).
fn dimension(given: Given) -> Bounds
    ensures { views.bounds_view result ≡ elaborated.bounds (given_of given) }
{
    match given {
        Given::Value(_, upper) => Bounds {
            lower: one(),
            upper,
        },
        Given::Triplet(lower, upper, _) => Bounds {
            lower: or_one(lower),
            upper: or_one(upper),
        },
    }
}

fn dimensions(alloc: Global, list: Vec<Given>) -> Result<Vec<Bounds>, AllocError>
    ensures { IfOk result (λ v. map views.bounds_view v.items ≡ map elaborated.bounds (map given_of list.items)) }
{
    let mut found = Vec::new(alloc);
    for given in list {
        found.push(dimension(given))?;
    }
    Ok(found)
}

/// An object: itself and not what it holds, and the bounds behind it.
fn request(
    alloc: Global,
    from: Surroundings<'_>,
    list: &[(Name, Option<Vec<Argument>>)],
) -> Result<Request, AllocError>
    ensures { IfOk result (λ r. views.request_view r ≡ elaborated.request (surroundings_of from.entry) (tree.parts_list (map tree.part_view list.now))) }
{
    let has = unbounded_has(alloc, from.known, from.at, list)?;
    let whole = parts(alloc, from, list)?;
    let (object, given) = unbound(alloc, whole)?;
    let object = designated(alloc, from, type_in(has), object)?;
    let bounds = dimensions(alloc, given)?;
    Ok(Request {
        object: itself(named(object)),
        kind: kind_by(from, has),
        bounds,
    })
}

/// The objects of an ALLOCATE or a DEALLOCATE, in the order written.
///
/// # Errors
///
/// Where memory runs out.
pub fn requests(
    alloc: Global,
    from: Surroundings<'_>,
    list: &[Vec<(Name, Option<Vec<Argument>>)>],
) -> Result<Vec<Request>, AllocError>
    ensures { IfOk result (λ v. map views.request_view v.items ≡ map (elaborated.request (surroundings_of from.entry)) (map tree.designator_view list.now)) }
{
    let mut found = Vec::new(alloc);
    for object in list {
        found.push(request(alloc, from, object)?)?;
    }
    Ok(found)
}

/// The STAT variable, where there is one (6.3.1).
///
/// # Errors
///
/// Where memory runs out.
pub fn status(
    alloc: Global,
    from: Surroundings<'_>,
    written: &Option<Vec<(Name, Option<Vec<Argument>>)>>,
) -> Result<Option<Designator>, AllocError>
    ensures { IfOk result (λ d. option_map views.designator_view d ≡ option_map (elaborated.variable (surroundings_of from.entry)) (option_map tree.designator_view written.now)) }
{
    match written {
        Some(list) => {
            let found = variable(alloc, from, list)?;
            Ok(Some(found))
        }
        None => Ok(None),
    }
}
