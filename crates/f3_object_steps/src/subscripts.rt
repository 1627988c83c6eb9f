//! The subscripts that are selected in a dimension.

ghost use Rattle.std.specs.Prelude.{◌≡◌, ◌≢◌, pos, ◌+◌, ◌-◌, ◌*◌, ◌-ℤ◌, ◌<ℤ◌, ◌≤ℤ◌, ◌<◌, ◌≤◌, ◌^◌, neg_ℤ, ◌&&◌, int_le, int_lt, nat_abs, map, true, false, IfOk, MatchOption, OnSome, unwrap_or};
ghost use Rattle.std.specs.Int.RustNames.{unsigned_abs};
ghost use Rattle.f3_meaning_whole.specs.Arithmetic as a;
ghost use Rattle.f3_meaning_whole.specs.Act.{end_of, is_inside, steps_by_zero, subscripts_in};
ghost use Rattle.f3_data.specs.Values.{span_of};
ghost use Rattle.f3_cells.specs.Cells.{chosen_of};
ghost use Rattle.f3_object_steps.specs.Walks.{IsNear, subscripts_of, subscripts_from};

use f3_cells::cell::Chosen;
use f3_data::value::Span;
use std::alloc::{AllocError, Global};

/// The subscripts that are left: the next one, how many there are, and how far each is from the one before.
#[derive(Clone, Copy, PartialEq, Eq, Debug)]
pub struct Walk {
    pub next: i128,
    pub left: u128,
    pub step: i64,
}

/// The last subscript of a triplet, or of the dimension where it has none.
fn last_of(span: Span, upper: Option<i64>) -> i128
    ensures value { result ≡ unwrap_or upper (end_of (span_of span) -ℤ pos 1) }
    ensures near { IsNear result }
{
    match upper {
        Some(upper) => upper as i128,
        None => span.lower as i128 + span.extent as i128 - 1,
    }
}

#[tactic(auto, using(f3_arithmetic::proofs::Distances::upward))]
fn turns_up(first: i128, last: i128, step: i64) -> u128
    requires step { pos 0 <ℤ step }
    requires order { first ≤ℤ last }
    requires first { IsNear first }
    requires last { IsNear last }
    ensures { result ≡ a.trips first last step }
{
    last.abs_diff(first) / step.unsigned_abs() as u128 + 1
}

#[tactic(auto, using(crate::proofs::Stepping::downwards))]
fn turns_down(first: i128, last: i128, step: i64) -> u128
    requires step { step <ℤ pos 0 }
    requires order { last ≤ℤ first }
    requires first { IsNear first }
    requires last { IsNear last }
    ensures { result ≡ a.trips first last step }
{
    last.abs_diff(first) / step.unsigned_abs() as u128 + 1
}

/// How often a number goes from one to another by a step.
#[tactic(auto, using(f3_arithmetic::proofs::Distances::no_way_up, f3_arithmetic::proofs::Distances::no_way_down))]
fn turns(first: i128, last: i128, step: i64) -> u128
    requires step { step ≢ pos 0 }
    requires first { IsNear first }
    requires last { IsNear last }
    ensures { result ≡ a.trips first last step }
{
    if step > 0 {
        if first <= last {
            turns_up(first, last, step)
        } else {
            0
        }
    } else if last <= first {
        turns_down(first, last, step)
    } else {
        0
    }
}

/// What is selected in a dimension, whose bounds stand for those that are absent (ISO/IEC 1539-1:2004, 6.2.2.3.1).
pub fn walk_of(span: Span, chosen: Chosen) -> Walk
    requires { steps_by_zero (chosen_of chosen) ≡ false }
    ensures subscripts { subscripts_of result ≡ subscripts_in (span_of span) (chosen_of chosen) }
    ensures near { IsNear result.next }
    ensures moves { result.step ≢ pos 0 }
{
    match chosen {
        Chosen::At(subscript) => Walk {
            next: subscript as i128,
            left: 1,
            step: 1,
        },
        Chosen::Range(lower, upper, step) => {
            let first = lower.unwrap_or(span.lower) as i128;
            Walk {
                next: first,
                left: turns(first, last_of(span, upper), step),
                step,
            }
        }
    }
}

/// How far a subscript is from the lower bound of a dimension: none, where it is out of bounds.
fn offset_of(span: Span, subscript: i128) -> Option<u64>
    requires { IsNear subscript }
    ensures low { OnSome result (neg_ℤ (pos (2 ^ 63)) ≤ℤ subscript) }
    ensures high { OnSome result (subscript ≤ℤ pos (2 ^ 65)) }
    ensures value { MatchOption result ((int_le span.lower subscript && int_lt subscript (end_of (span_of span))) ≡ false) (λ o. ((int_le span.lower subscript && int_lt subscript (end_of (span_of span))) ≡ true) × (o ≡ nat_abs (subscript -ℤ span.lower))) }
{
    let offset = subscript - span.lower as i128;
    if offset >= 0 && offset < span.extent as i128 {
        Some(offset as u64)
    } else {
        None
    }
}

/// How far the next subscript is from the lower bound of a dimension: none, where it is out of bounds.
pub fn next_offset(span: Span, walk: Walk) -> Option<u64>
    requires { IsNear walk.next }
    ensures low { OnSome result (neg_ℤ (pos (2 ^ 63)) ≤ℤ walk.next) }
    ensures high { OnSome result (walk.next ≤ℤ pos (2 ^ 65)) }
    ensures value { MatchOption result ((int_le span.lower walk.next && int_lt walk.next (end_of (span_of span))) ≡ false) (λ o. ((int_le span.lower walk.next && int_lt walk.next (end_of (span_of span))) ≡ true) × (o ≡ nat_abs (walk.next -ℤ span.lower))) }
{
    offset_of(span, walk.next)
}

/// How far each subscript is from the one before, upwards or downwards.
fn distance_of(walk: Walk) -> u64
    ensures { result ≡ unsigned_abs walk.step }
{
    walk.step.unsigned_abs()
}

/// The subscripts upwards from one to a last that is inside, by how far they are from the lower bound of a dimension.
fn offsets_up(
    alloc: Global,
    span: Span,
    walk: Walk,
    first: u64,
    behind: u64,
) -> Result<Vec<usize>, AllocError>
    requires up { pos 0 ≤ℤ walk.step }
    requires few { behind < span.extent }
    requires last { first + behind * unsigned_abs walk.step < span.extent }
    ensures { IfOk result (λ v. (is_inside (span_of span) (subscripts_from span.lower first behind walk.step) ≡ true) × (v.items ≡ map (λ z. nat_abs (z -ℤ span.lower)) (subscripts_from span.lower first behind walk.step))) }
{
    let distance = distance_of(walk);
    let mut offsets = Vec::with_capacity(alloc, behind as usize + 1)?;
    let mut offset = first;
    let mut left = behind;
    while left > 0 {
        offsets.push_reserved(offset as usize);
        offset += distance;
        left -= 1;
    }
    offsets.push_reserved(offset as usize);
    Ok(offsets)
}

/// The same downwards.
fn offsets_down(
    alloc: Global,
    span: Span,
    walk: Walk,
    first: u64,
    behind: u64,
) -> Result<Vec<usize>, AllocError>
    requires down { walk.step <ℤ pos 0 }
    requires few { behind < span.extent }
    requires first { first < span.extent }
    requires last { behind * unsigned_abs walk.step ≤ first }
    ensures { IfOk result (λ v. (is_inside (span_of span) (subscripts_from span.lower first behind walk.step) ≡ true) × (v.items ≡ map (λ z. nat_abs (z -ℤ span.lower)) (subscripts_from span.lower first behind walk.step))) }
{
    let distance = distance_of(walk);
    let mut offsets = Vec::with_capacity(alloc, behind as usize + 1)?;
    let mut offset = first;
    let mut left = behind;
    while left > 0 {
        offsets.push_reserved(offset as usize);
        offset -= distance;
        left -= 1;
    }
    offsets.push_reserved(offset as usize);
    Ok(offsets)
}

/// The subscripts of a walk whose first is inside, by how far they are from the lower bound of a dimension: none, where the last
/// is out of bounds, and so some are.
fn offsets_from(
    alloc: Global,
    span: Span,
    walk: Walk,
    first: u64,
) -> Result<Option<Vec<usize>>, AllocError>
    requires inside { first < span.extent }
    requires moves { walk.step ≢ pos 0 }
    ensures { IfOk result (λ found. MatchOption found (is_inside (span_of span) (subscripts_from span.lower first (walk.left - 1) walk.step) ≡ false) (λ v. (is_inside (span_of span) (subscripts_from span.lower first (walk.left - 1) walk.step) ≡ true) × (v.items ≡ map (λ z. nat_abs (z -ℤ span.lower)) (subscripts_from span.lower first (walk.left - 1) walk.step)))) }
{
    let behind = walk.left.saturating_sub(1);
    if behind >= span.extent as u128 {
        return Ok(None);
    }
    let Some(way) = (behind as u64).checked_mul(distance_of(walk)) else {
        return Ok(None);
    };
    if walk.step < 0 {
        if way > first {
            return Ok(None);
        }
        Ok(Some(offsets_down(alloc, span, walk, first, behind as u64)?))
    } else {
        if way >= span.extent - first {
            return Ok(None);
        }
        Ok(Some(offsets_up(alloc, span, walk, first, behind as u64)?))
    }
}

/// The selected subscripts, by how far they are from the lower bound of a dimension: none, where some are out of bounds.
#[tactic(auto, using(crate::proofs::Stepping::outside, crate::proofs::Stepping::none_left, crate::proofs::Stepping::first_inside))]
pub fn offsets(alloc: Global, span: Span, chosen: Chosen) -> Result<Option<Vec<usize>>, AllocError>
    requires { steps_by_zero (chosen_of chosen) ≡ false }
    ensures { IfOk result (λ found. MatchOption found (is_inside (span_of span) (subscripts_in (span_of span) (chosen_of chosen)) ≡ false) (λ v. (is_inside (span_of span) (subscripts_in (span_of span) (chosen_of chosen)) ≡ true) × (v.items ≡ map (λ z. nat_abs (z -ℤ span.lower)) (subscripts_in (span_of span) (chosen_of chosen))))) }
{
    let walk = walk_of(span, chosen);
    if walk.left == 0 {
        return Ok(Some(Vec::new(alloc)));
    }
    match next_offset(span, walk) {
        Some(first) => offsets_from(alloc, span, walk, first),
        None => Ok(None),
    }
}
