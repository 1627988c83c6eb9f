//! Elements and sections of arrays.

ghost use Rattle.std.specs.Prelude.{◌≡◌, true, false, IfOk, MatchResult, length, map, slice_get};
ghost use Rattle.std.specs.List.{filter_map};
ghost use Rattle.f3_meaning_whole.specs.Store as s;
ghost use Rattle.f3_meaning_whole.specs.Reference.{Many};
ghost use Rattle.f3_meaning_whole.specs.Act as a;
ghost use Rattle.f3_meaning_whole.specs.Eval.{by_reach, spans_of_component};
ghost use Rattle.f3_code.specs.Machine.{selects};
ghost use Rattle.f3_data.specs.declared.store.Store as d;
ghost use Rattle.f3_data.specs.Values.{span_of, spans_of};
ghost use Rattle.f3_object_steps.specs.Selections.{rows_of, AreBelow};
ghost use Rattle.f3_data.specs.Stores.{path_of, steps_of};
ghost use Rattle.f3_data.specs.References.{element_path, numbers_of, reach_in, reference_of};
ghost use Rattle.f3_cells.specs.Cells.{chosen_of};
ghost use Rattle.f3_object_steps.specs.Performed.{Performed};
ghost use Rattle.f3_object_steps.specs.Inner.Picks.{tail_of, narrowed, narrowed_path, narrowed_reach, element_in, FirstPlace, Picked, PickedOf};

use crate::naming::contents;
use crate::places::{Selected, place_of, selection};
use crate::subscripts::{next_offset, walk_of};
use f3_cells::cell::Chosen;
use f3_cells::state::Stop;
use f3_data::reference::{Numbers, Reach, Reference, Section};
use f3_data::store::{Path, Step, Store};
use f3_data::value::Span;
use f3_located::elements::{length_of, number_at};
use f3_meaning_whole::run_error::RunError;
use f3_program::declarations::{Base, Derived};
use f3_shaping::initial::spans_declared;
use std::alloc::{AllocError, Global};

fn steps_by_zero(choice: Chosen) -> bool
    ensures { result ≡ a.steps_by_zero (chosen_of choice) }
{
    match choice {
        Chosen::At(_) => false,
        Chosen::Range(_, _, step) => step == 0,
    }
}

fn some_zero_step(chosen: &[Chosen]) -> bool
    ensures { result ≡ a.some_zero_step (map chosen_of chosen.now) }
{
    for choice in chosen {
        if steps_by_zero(*choice) {
            return true;
        }
    }
    false
}

/// The numbers of elements by their places among those that are meant.
fn numbers_at(alloc: Global, numbers: &Numbers, places: &[usize]) -> Result<Vec<usize>, AllocError>
    ensures { IfOk result (λ v. v.items ≡ filter_map (slice_get (numbers_of numbers.now)) places.now) }
{
    let mut found = Vec::with_capacity(alloc, places.len())?;
    for place in places {
        if let Some(number) = number_at(numbers, *place) {
            found.push(number)?;
        }
    }
    Ok(found)
}

/// The numbers of elements by their places, where there is an element at each: all numbers from 0 on are their own places.
fn numbered(alloc: Global, numbers: &Numbers, places: Vec<usize>) -> Result<Vec<usize>, AllocError>
    requires { AreBelow (length (numbers_of numbers.now)) places.items }
    ensures { IfOk result (λ v. v.items ≡ filter_map (slice_get (numbers_of numbers.now)) places.items) }
{
    match numbers {
        Numbers::First(_) => Ok(places),
        Numbers::Listed(_) => {
            let found = numbers_at(alloc, numbers, &places)?;
            drop(places);
            Ok(found)
        }
    }
}

/// What is selected of an array: the elements by their numbers.
///
/// `StepIsZero`, before `SubscriptOutOfBounds` (own rules).
#[tactic(auto, using(crate::proofs::Selecting::kept_numbers, crate::proofs::Selecting::kept_below))]
fn picked(
    alloc: Global,
    spans: &[Span],
    numbers: &Numbers,
    chosen: &[Chosen],
) -> Result<Selected, Stop>
    ensures { Picked (spans_of spans.now) (numbers_of numbers.now) (map chosen_of chosen.now) result }
{
    if some_zero_step(chosen) {
        return Err(Stop::Failed(RunError::StepIsZero));
    }
    let Some(found) = selection(alloc, spans, chosen, length_of(numbers))? else {
        return Err(Stop::Failed(RunError::SubscriptOutOfBounds));
    };
    let Selected { places, spans } = found;
    let places = numbered(alloc, numbers, places)?;
    Ok(Selected { places, spans })
}

/// What is meant of each element.
fn tail_of(alloc: Global, reach: Reach) -> Vec<Step>
    ensures { steps_of result.items ≡ tail_of reach }
{
    match reach {
        Reach::One => Vec::new(alloc),
        Reach::Many(section) => {
            let Section {
                spans,
                numbers,
                tail,
            } = Box::into_inner(section);
            drop(spans);
            drop(numbers);
            tail
        }
    }
}

/// A part of elements of these places, with bounds.
fn section(
    alloc: Global,
    spans: Vec<Span>,
    places: Vec<usize>,
    tail: Vec<Step>,
) -> Result<Reach, AllocError>
    ensures { IfOk result (λ r. (p : s.Path) → reach_in p r ≡ Many (spans_of spans.items) (map (element_path p (steps_of tail.items)) places.items)) }
{
    let section = Section {
        spans,
        numbers: Numbers::Listed(places),
        tail,
    };
    Ok(Reach::Many(Box::new(alloc, section)?))
}

/// One element, or a section, is meant.
fn narrow(
    alloc: Global,
    path: &mut Path,
    tail: Vec<Step>,
    selected: Selected,
) -> Result<Reach, AllocError>
    ensures path { IfOk result (λ r. path_of path.new ≡ narrowed_path (path_of path.old) (spans_of selected.spans.items) (map (element_path (path_of path.old) (steps_of tail.items)) selected.places.items)) }
    ensures reach { IfOk result (λ r. reach_in (path_of path.new) r ≡ narrowed_reach (spans_of selected.spans.items) (map (element_path (path_of path.old) (steps_of tail.items)) selected.places.items)) }
{
    let Selected { places, spans } = selected;
    if !spans.is_empty() {
        return section(alloc, spans, places, tail);
    }
    match places.first() {
        Some(place) => {
            path.steps.push(Step::Element(*place))?;
            path.steps.extend_from_slice(&tail)?;
            Ok(Reach::One)
        }
        None => section(alloc, spans, places, tail),
    }
}

/// What is selected of what a reference reaches: none, where that is one object.
fn picked_of(alloc: Global, reach: &Reach, chosen: &[Chosen]) -> Result<Option<Selected>, Stop>
    ensures { PickedOf reach.now (map chosen_of chosen.now) result }
{
    match reach {
        Reach::One => Ok(None),
        Reach::Many(section) => match picked(alloc, &section.spans, &section.numbers, chosen) {
            Ok(found) => Ok(Some(found)),
            Err(stop) => Err(stop),
        },
    }
}

/// An element or a section of what a reference reaches.
fn narrowed(alloc: Global, reference: Reference, selected: Selected) -> Result<Reference, Stop>
    ensures { MatchResult result (λ q. reference_of q ≡ narrowed (reference_of reference) (spans_of selected.spans.items) (map (element_path (path_of reference.path) (tail_of reference.reach)) selected.places.items)) (λ e. e ≡ Stop.Memory) }
{
    let Reference {
        mut path,
        reach,
        of,
        right,
        origin,
        makers,
    } = reference;
    match narrow(alloc, &mut path, tail_of(alloc, reach), selected) {
        Ok(reach) => Ok(Reference {
            path,
            reach,
            of,
            right,
            origin,
            makers,
        }),
        Err(_) => Err(Stop::Memory),
    }
}

/// An element or a section of an array (6.2.2); of one object, the object.
///
/// `StepIsZero`, before `SubscriptOutOfBounds` (own rules).
pub fn picks(alloc: Global, reference: Reference, chosen: &[Chosen]) -> Result<Reference, Stop>
    ensures { (store : d.Store) → Performed reference_of (λ (here : a.Here). a.picks (reference_of reference) (reference_of reference).reach (map chosen_of chosen.now) here) result store store }
{
    let found = match picked_of(alloc, &reference.reach, chosen) {
        Ok(found) => found,
        Err(stop) => {
            drop(reference);
            return Err(stop);
        }
    };
    match found {
        Some(selected) => narrowed(alloc, reference, selected),
        None => Ok(reference),
    }
}

/// Elements of an object, or of what it holds.
pub fn selects(
    alloc: Global,
    store: &Store,
    reference: Reference,
    is_opened: bool,
    chosen: &[Chosen],
) -> Result<Reference, Stop>
    ensures { Performed reference_of (λ (here : a.Here). selects is_opened (map chosen_of chosen.now) (reference_of reference) here) result store.now store.now }
{
    if is_opened {
        match contents(alloc, store, reference) {
            Ok(held) => picks(alloc, held, chosen),
            Err(stop) => Err(stop),
        }
    } else {
        picks(alloc, reference, chosen)
    }
}

/// The place of the first selected element of a row.
#[tactic(auto, using(crate::proofs::FirstPlaces::row_none, crate::proofs::FirstPlaces::row_some, crate::proofs::FirstPlaces::row_outside))]
fn first_in(span: Span, choice: Chosen, row: usize) -> Result<Option<usize>, Stop>
    requires step { a.steps_by_zero (chosen_of choice) ≡ false }
    requires inside { a.is_inside (span_of span) (a.subscripts_in (span_of span) (chosen_of choice)) ≡ true }
    ensures { MatchResult result (λ o. o ≡ slice_get (rows_of (span_of span) (chosen_of choice) row) 0) (λ e. e ≡ Stop.Memory) }
{
    let walk = walk_of(span, choice);
    if walk.left == 0 {
        return Ok(None);
    }
    let Some(offset) = next_offset(span, walk) else {
        return Ok(None);
    };
    match place_of(offset, span.extent, row, usize::MAX) {
        Some(place) => Ok(Some(place)),
        None => Err(Stop::Memory),
    }
}

/// The place of the first selected element: none, where none is selected. `Stop::Memory` where no memory has such a place.
#[tactic(auto, using(crate::proofs::FirstPlaces::no_rows, crate::proofs::FirstPlaces::first_row, crate::proofs::FirstPlaces::inside_first, crate::proofs::FirstPlaces::inside_behind))]
fn first_of(spans: &[Span], chosen: &[Chosen]) -> Result<Option<usize>, Stop>
    requires steps { a.some_zero_step (map chosen_of chosen.now) ≡ false }
    requires inside { a.all_inside (spans_of spans.now) (map chosen_of chosen.now) ≡ true }
    ensures { MatchResult result (λ o. o ≡ slice_get (a.places_in (spans_of spans.now) (map chosen_of chosen.now)) 0) (λ e. e ≡ Stop.Memory) }
{
    let Some((span, others)) = spans.split_first() else {
        return Ok(Some(0));
    };
    let Some((choice, rest)) = chosen.split_first() else {
        return Ok(Some(0));
    };
    match first_of(others, rest)? {
        Some(row) => first_in(*span, *choice, row),
        None => Ok(None),
    }
}

/// The place of the first selected element, or 0 where none is selected.
///
/// `StepIsZero`, before `SubscriptOutOfBounds` (own rules).
#[tactic(auto, using(crate::proofs::FirstPlaces::first_found, crate::proofs::FirstPlaces::first_missing))]
fn first_place(alloc: Global, spans: &[Span], chosen: &[Chosen]) -> Result<usize, Stop>
    ensures { FirstPlace (spans_of spans.now) (map chosen_of chosen.now) result }
{
    if some_zero_step(chosen) {
        return Err(Stop::Failed(RunError::StepIsZero));
    }
    let Some(found) = selection(alloc, spans, chosen, 0)? else {
        return Err(Stop::Failed(RunError::SubscriptOutOfBounds));
    };
    drop(found);
    match first_of(spans, chosen)? {
        Some(place) => Ok(place),
        None => Ok(0),
    }
}

/// An element of the array that is meant of each element; of one object, the object.
#[tactic(auto, using(crate::proofs::FirstPlaces::all_elements))]
fn element_of_each(reach: Reach, place: usize) -> Result<Reach, AllocError>
    ensures { IfOk result (λ r. (p : s.Path) → reach_in p r ≡ element_in (reach_in p reach) place) }
{
    match reach {
        Reach::One => Ok(Reach::One),
        Reach::Many(mut section) => {
            section.tail.push(Step::Element(place))?;
            Ok(Reach::Many(section))
        }
    }
}

/// An element of the array that a component of each element is (6.2.2).
///
/// `StepIsZero`, before `SubscriptOutOfBounds` (own rules).
pub fn picks_in_each(
    alloc: Global,
    spans: &[Span],
    reference: Reference,
    chosen: &[Chosen],
) -> Result<Reference, Stop>
    ensures { (store : d.Store) → Performed reference_of (λ (here : a.Here). a.picks_in_each (spans_of spans.now) (reference_of reference) (map chosen_of chosen.now) here) result store store }
{
    match first_place(alloc, spans, chosen) {
        Ok(place) => each_part(reference, place),
        Err(stop) => {
            drop(reference);
            Err(stop)
        }
    }
}

/// A reference to such elements.
fn each_part(reference: Reference, place: usize) -> Result<Reference, Stop>
    ensures { MatchResult result (λ q. reference_of q ≡ a.moved (reference_of reference) (path_of reference.path) (element_in (reach_in (path_of reference.path) reference.reach) place)) (λ e. e ≡ Stop.Memory) }
{
    let Reference {
        path,
        reach,
        of,
        right,
        origin,
        makers,
    } = reference;
    match element_of_each(reach, place) {
        Ok(reach) => Ok(Reference {
            path,
            reach,
            of,
            right,
            origin,
            makers,
        }),
        Err(_) => Err(Stop::Memory),
    }
}

/// The bounds of a component of explicit shape of an object of a type.
fn component_spans(
    alloc: Global,
    types: &[Derived],
    of: Base,
    k: usize,
) -> Result<Vec<Span>, AllocError>
    ensures { IfOk result (λ v. spans_of v.items ≡ spans_of_component (a.component_of types.now of k)) }
{
    let Base::Derived(t) = of else {
        return Ok(Vec::new(alloc));
    };
    let Some(derived) = types.get(t) else {
        return Ok(Vec::new(alloc));
    };
    match derived.components.get(k) {
        Some(component) => spans_declared(alloc, &component.declared.dimensions),
        None => Ok(Vec::new(alloc)),
    }
}

fn is_one(reach: &Reach) -> bool
    ensures { (p : s.Path) → result ≡ by_reach (reach_in p reach.now) true false }
{
    match reach {
        Reach::One => true,
        Reach::Many(_) => false,
    }
}

/// Elements of a component of an object, or of each element of an array, by the component's number among those of a type.
pub fn selects_of(
    alloc: Global,
    types: &[Derived],
    store: &Store,
    object: Reference,
    part: Reference,
    is_opened: bool,
    k: usize,
    chosen: &[Chosen],
) -> Result<Reference, Stop>
    ensures { (g : a.Setting) → g.program.types.items ≡ types.now → Performed reference_of (λ (here : a.Here). by_reach (reference_of object).reach (selects is_opened (map chosen_of chosen.now) (reference_of part) here) (a.picks_in_each (spans_of_component (a.component_of g.program.types.items object.of k)) (reference_of part) (map chosen_of chosen.now) here)) result store.now store.now }
{
    let is_whole = is_one(&object.reach);
    let of = object.of;
    drop(object);
    if is_whole {
        return selects(alloc, store, part, is_opened, chosen);
    }
    match component_spans(alloc, types, of, k) {
        Ok(spans) => picks_in_each(alloc, &spans, part, chosen),
        Err(_) => {
            drop(part);
            Err(Stop::Memory)
        }
    }
}
