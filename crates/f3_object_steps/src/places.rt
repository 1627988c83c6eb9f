//! The elements that are selected of an array.

ghost use Rattle.std.specs.Prelude.{◌≡◌, length, ◌+◌, ◌*◌, ◌++◌, ◌-ℤ◌, [], ◌∷◌, nat_abs, nat_lt, map, true, false, IfOk, OnOk, MatchOption};
ghost use Rattle.std.specs.List.{flat_map};
ghost use Rattle.f3_meaning_whole.specs.Act.{all_inside, is_inside, places_in, some_zero_step, spans_in, steps_by_zero, subscripts_in};
ghost use Rattle.f3_data.specs.Values.{span_of, spans_of};
ghost use Rattle.f3_cells.specs.Cells.{chosen_of};
ghost use Rattle.f3_object_steps.specs.Selections.{kept, row_of, spans_with, AreBelow, AreSelected, Widened};

use crate::subscripts::offsets;
use f3_cells::cell::Chosen;
use f3_data::value::Span;
use std::alloc::{AllocError, Global};

/// What is selected of an array: the places of elements, and the bounds of the section, none where it is an element.
#[derive(Drop)]
pub struct Selected {
    pub places: Vec<usize>,
    pub spans: Vec<Span>,
}

/// A place in a row of elements, where there is such an element.
pub fn place_of(offset: u64, extent: u64, row: usize, limit: usize) -> Option<usize>
    ensures { MatchOption result (nat_lt (offset + extent * row) limit ≡ false) (λ p. (nat_lt (offset + extent * row) limit ≡ true) × (p ≡ offset + extent * row)) }
{
    let Some(start) = extent.checked_mul(row as u64) else {
        return None;
    };
    let Some(place) = offset.checked_add(start) else {
        return None;
    };
    if place < limit as u64 {
        Some(place as usize)
    } else {
        None
    }
}

/// The places in a row are added.
#[tactic(auto, using(crate::proofs::Selecting::keeps, crate::proofs::Selecting::leaves))]
fn add_row(
    places: &mut Vec<usize>,
    offsets: &[usize],
    extent: u64,
    row: usize,
    limit: usize,
) -> Result<(), AllocError>
    ensures { OnOk result (places.new.items ≡ places.old.items ++ kept limit (row_of offsets.now extent row)) }
{
    for offset in offsets {
        if let Some(place) = place_of(*offset as u64, extent, row, limit) {
            places.push(place)?;
        }
    }
    Ok(())
}

/// The places in several rows.
#[tactic(auto, using(crate::proofs::Selecting::kept_append))]
fn rows(
    alloc: Global,
    offsets: &[usize],
    extent: u64,
    rows: &[usize],
    limit: usize,
) -> Result<Vec<usize>, AllocError>
    ensures { IfOk result (λ v. v.items ≡ kept limit (flat_map (row_of offsets.now extent) rows.now)) }
{
    let most = offsets.len().saturating_mul(rows.len()).min(limit);
    let mut places = Vec::with_capacity(alloc, most)?;
    for row in rows {
        add_row(&mut places, offsets, extent, *row, limit)?;
    }
    Ok(places)
}

/// Whether of rows the first is the only one.
fn is_first_alone(rows: &[usize]) -> bool
    ensures { result ≡ true → rows.now ≡ 0 ∷ [] }
{
    match rows.split_first() {
        Some((row, others)) => *row == 0 && others.is_empty(),
        None => false,
    }
}

/// The places in several rows: of the first row alone they are the offsets, where the row is before the limit.
#[tactic(auto, using(crate::proofs::Selecting::first_row))]
fn places_in_rows(
    alloc: Global,
    offsets: Vec<usize>,
    extent: u64,
    behind: &[usize],
    limit: usize,
) -> Result<Vec<usize>, AllocError>
    requires { AreBelow extent offsets.items }
    ensures { IfOk result (λ v. v.items ≡ kept limit (flat_map (row_of offsets.items extent) behind.now)) }
{
    if extent <= limit as u64 && is_first_alone(behind) {
        return Ok(offsets);
    }
    let places = rows(alloc, &offsets, extent, behind, limit)?;
    drop(offsets);
    Ok(places)
}

/// The bounds of a section with a dimension more, of so many subscripts, where that is not one subscript.
fn spans_with(choice: Chosen, count: usize, mut spans: Vec<Span>) -> Result<Vec<Span>, AllocError>
    ensures { IfOk result (λ v. spans_of v.items ≡ spans_with (chosen_of choice) count (spans_of spans.items)) }
{
    match choice {
        Chosen::At(_) => Ok(spans),
        Chosen::Range(_, _, _) => {
            spans.insert(
                0,
                Span {
                    lower: 1,
                    extent: count as u64,
                },
            )?;
            Ok(spans)
        }
    }
}

/// What is selected in one dimension more, by how far the subscripts are from its lower bound.
fn widened_by(
    alloc: Global,
    span: Span,
    choice: Chosen,
    offsets: Vec<usize>,
    behind: Selected,
    limit: usize,
) -> Result<Selected, AllocError>
    requires { AreBelow span.extent offsets.items }
    ensures places { IfOk result (λ x. x.places.items ≡ kept limit (flat_map (row_of offsets.items span.extent) behind.places.items)) }
    ensures spans { IfOk result (λ x. spans_of x.spans.items ≡ spans_with (chosen_of choice) (length offsets.items) (spans_of behind.spans.items)) }
{
    let Selected { places, spans } = behind;
    let spans = spans_with(choice, offsets.len(), spans)?;
    let places = places_in_rows(alloc, offsets, span.extent, &places, limit)?;
    Ok(Selected { places, spans })
}

/// What is selected in one dimension more: none, where some subscripts are out of bounds.
fn widened(
    alloc: Global,
    span: Span,
    choice: Chosen,
    behind: Selected,
    limit: usize,
) -> Result<Option<Selected>, AllocError>
    requires { steps_by_zero (chosen_of choice) ≡ false }
    ensures { IfOk result (λ found. MatchOption found (is_inside (span_of span) (subscripts_in (span_of span) (chosen_of choice)) ≡ false) (Widened (span_of span) (chosen_of choice) behind limit)) }
{
    match offsets(alloc, span, choice)? {
        Some(offsets) => Ok(Some(widened_by(alloc, span, choice, offsets, behind, limit)?)),
        None => {
            drop(behind);
            Ok(None)
        }
    }
}

/// Of an array without dimensions the one element is selected, where there is one.
fn narrowest(alloc: Global, limit: usize) -> Result<Selected, AllocError>
    ensures { IfOk result (λ x. (x.places.items ≡ kept limit (0 ∷ [])) × (x.spans.items ≡ [])) }
{
    let mut places = Vec::new(alloc);
    if limit > 0 {
        places.push(0)?;
    }
    Ok(Selected {
        places,
        spans: Vec::new(alloc),
    })
}

/// What is selected of an array with these bounds, of elements before a limit: none, where some subscripts are out of bounds
/// (ISO/IEC 1539-1:2004, 6.2.2.2, 6.2.2.3).
pub fn selection(
    alloc: Global,
    spans: &[Span],
    chosen: &[Chosen],
    limit: usize,
) -> Result<Option<Selected>, AllocError>
    requires { some_zero_step (map chosen_of chosen.now) ≡ false }
    ensures { IfOk result (λ found. MatchOption found (all_inside (spans_of spans.now) (map chosen_of chosen.now) ≡ false) (AreSelected (spans_of spans.now) (map chosen_of chosen.now) limit)) }
{
    let Some((span, others)) = spans.split_first() else {
        return Ok(Some(narrowest(alloc, limit)?));
    };
    let Some((choice, rest)) = chosen.split_first() else {
        return Ok(Some(narrowest(alloc, limit)?));
    };
    match selection(alloc, others, rest, limit)? {
        Some(behind) => widened(alloc, *span, *choice, behind, limit),
        None => Ok(None),
    }
}
