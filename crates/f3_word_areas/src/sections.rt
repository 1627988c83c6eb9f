//! Elements and sections of arrays.

ghost use Rattle.std.specs.Prelude.{◌≡◌, ◌≢◌, ◌↔◌, pos, ◌+ℤ◌, ◌-ℤ◌, ◌*ℤ◌, length, map, unwrap_or, All, IsTrue, IsOk, IfOk, IfSome, IfNone};
ghost use Rattle.std.specs.Option.{option_to_list};
ghost use Rattle.arrayvec.specs.ArrayVec.{array_vec_len};
ghost use Rattle.f3_meaning_whole.specs.Act.{some_zero_step, steps_by_zero};
ghost use Rattle.f3_desc.specs.declared.descriptor.Triplet.TheVariants as triplet;
ghost use Rattle.f3_desc.specs.Descriptor.{IsWithin};
ghost use Rattle.f3_desc.specs.Section.{IsStepZero, count, selected};
ghost use Rattle.f3_desc.specs.Inner.Congruent.{IsCongruent};
ghost use Rattle.f3_desc.specs.Inner.Cuts.{EndsAt, cut_of, first_of};
ghost use Rattle.f3_cells.specs.Cells.{chosen_of};
ghost use Rattle.f3_word_areas.specs.Sections.{IsNear, Selected, last_of, triplet_of};

use arrayvec::ArrayVec;
use f3_cells::cell::Chosen;
use f3_desc::descriptor::{Bounds, Descriptor, Dim, SectionFault};

fn is_zero_step(choice: Chosen) -> bool
    ensures { result ≡ steps_by_zero (chosen_of choice) }
{
    match choice {
        Chosen::At(_) => false,
        Chosen::Range(_, _, step) => step == 0,
    }
}

fn some_step_is_zero(chosen: &[Chosen]) -> bool
    ensures { result ≡ some_zero_step (map chosen_of chosen.now) }
{
    for choice in chosen {
        if is_zero_step(*choice) {
            return true;
        }
    }
    false
}

/// The second number of a triplet, or the last subscript of the dimension.
fn end_of(dim: Dim, upper: Option<i64>) -> i128
    ensures value { result ≡ unwrap_or upper (last_of dim) }
    ensures near { IsNear result }
{
    match upper {
        Some(upper) => upper as i128,
        None => dim.lower as i128 + dim.extent as i128 - 1,
    }
}

/// The last subscript that `from:to:step` selects, or `None` where it selects nothing.
fn last(from: i128, to: i128, step: i64) -> Option<i128>
    requires step { step ≢ pos 0 }
    requires from { IsNear from }
    requires to { IsNear to }
    ensures none { IfNone result (count from to step ≡ 0) }
    ensures some { IfSome result (λ s. EndsAt from to step s) }
{
    let over = from.abs_diff(to) % step.unsigned_abs() as u128;
    if step > 0 && from <= to {
        Some(to - over as i128)
    } else if step < 0 && to <= from {
        Some(to + over as i128)
    } else {
        None
    }
}

/// Whether a subscript is within bounds.
fn holds(dim: Dim, subscript: i128) -> bool
    ensures { IsTrue result ↔ IsWithin dim subscript }
{
    let lower = dim.lower as i128;
    lower <= subscript && subscript.abs_diff(lower) < dim.extent as u128
}

/// How many subscripts `from:to:step` selects.
fn count(dim: Dim, from: i64, to: i128, step: i64) -> Result<usize, Bounds>
    requires step { step ≢ pos 0 }
    requires near { IsNear to }
    ensures ok { IsOk result ↔ All (IsWithin dim) (selected (triplet.Range from to step)) }
    ensures value { IfOk result (λ n. n ≡ count from to step) }
{
    let from = from as i128;
    let Some(last) = last(from, to, step) else {
        return Ok(0);
    };
    if !holds(dim, from) || !holds(dim, last) {
        return Err(Bounds);
    }
    let behind = from.abs_diff(last) / step.unsigned_abs() as u128;
    Ok(behind as usize + 1)
}

/// The dimension that is left where this is selected of one, from 1 on.
fn cut(dim: Dim, choice: Chosen) -> Result<Option<Dim>, Bounds>
    requires { ¬ (IsStepZero (triplet_of dim (chosen_of choice))) }
    ensures ok { IsOk result ↔ All (IsWithin dim) (selected (triplet_of dim (chosen_of choice))) }
    ensures value { IfOk result (λ d. option_to_list d ≡ cut_of dim (triplet_of dim (chosen_of choice))) }
{
    match choice {
        Chosen::At(subscript) if holds(dim, subscript as i128) => Ok(None),
        Chosen::At(_) => Err(Bounds),
        Chosen::Range(lower, upper, step) => {
            let from = lower.unwrap_or(dim.lower);
            let extent = count(dim, from, end_of(dim, upper), step)?;
            let stride = dim.stride.wrapping_mul(step);
            Ok(Some(Dim {
                lower: 1,
                extent,
                stride,
            }))
        }
    }
}

/// The first subscript that is selected, if one is.
fn first(dim: Dim, choice: Chosen) -> i64
    ensures { result ≡ first_of (triplet_of dim (chosen_of choice)) }
{
    match choice {
        Chosen::At(subscript) => subscript,
        Chosen::Range(lower, _, _) => lower.unwrap_or(dim.lower),
    }
}

/// From the place of the element with the lower bound the one with the subscript, up to a multiple of 2 ^ 64.
fn moved(dim: Dim, place: usize, subscript: i64) -> usize
    ensures { let distance = (subscript -ℤ dim.lower) *ℤ dim.stride in IsCongruent (pos result) (pos place +ℤ distance) }
{
    let distance = subscript.wrapping_sub(dim.lower).wrapping_mul(dim.stride);
    place.wrapping_add(distance.cast_unsigned() as usize)
}

/// What is selected of an array, by one subscript or triplet for each dimension: the elements with the selected subscripts, in order
/// (ISO/IEC 1539-1:2004, 6.2.2.3). Its lower bounds are 1, and a single subscript leaves no dimension.
///
/// # Errors
///
/// `StepZero` where a step is zero; else `Bounds` where a subscript is out of bounds.
pub fn section(array: &Descriptor, chosen: &[Chosen]) -> Result<Descriptor, SectionFault>
    requires { length chosen.now ≡ array_vec_len array.now.dims }
    ensures { Selected array.now (map chosen_of chosen.now) result }
{
    if some_step_is_zero(chosen) {
        return Err(SectionFault::StepZero);
    }
    let mut offset = array.offset;
    let mut dims = ArrayVec::new();
    for (dim, choice) in array.dims.iter().zip(chosen) {
        let Ok(left) = cut(*dim, *choice) else {
            return Err(SectionFault::Bounds);
        };
        offset = moved(*dim, offset, first(*dim, *choice));
        if let Some(dim) = left {
            dims.push(dim);
        }
    }
    Ok(Descriptor {
        block: array.block,
        offset,
        dims,
    })
}
