//! What stands at references.

ghost use Rattle.std.specs.Prelude.{◌≡◌, ℕ, ◌+◌, ◌<◌, [], ◌∷◌, ◌++◌, vec_len, vec_capacity, IfOk, IfSome, OnOk, length, map, Some, slice_get, slice_index_or};
ghost use Rattle.f3_meaning_whole.specs.Value as v;
ghost use Rattle.f3_meaning_whole.specs.Store as s;
ghost use Rattle.f3_meaning_whole.specs.Reference.{held_at};
ghost use Rattle.f3_data.specs.Values.{value_of, values_of};
ghost use Rattle.f3_data.specs.Stores.{steps_of, path_of, store_of};
ghost use Rattle.f3_data.specs.References.{counted, element_path, numbers_of, reach_in};

use crate::elements::{element_path, go_to, length_of, place_at};
use crate::reaches::show;
use f3_data::copies;
use f3_data::parts::object;
use f3_data::reference::{Numbers, Reach, Reference, Section};
use f3_data::store::{Path, Step, Store};
use f3_data::value::{Value, array};
use std::alloc::{AllocError, Global};

/// A copy of what stands at a path.
pub fn copy_at(alloc: Global, store: &Store, path: &Path) -> Result<Value, AllocError>
    ensures { IfOk result (λ x. value_of x ≡ s.get (store_of store.now) (path_of path.now)) }
{
    match store.get(path) {
        Some(value) => copies::value(alloc, value),
        None => Ok(Value::Unallocated),
    }
}

/// A copy of a value joins others, for which there is room.
#[inline(always)]
pub(crate) fn push_copy(
    alloc: Global,
    copies: &mut Vec<Value>,
    value: &Value,
) -> Result<(), AllocError>
    requires { vec_len copies.old < vec_capacity copies.old }
    ensures items { OnOk result (values_of copies.new.items ≡ values_of copies.old.items ++ value_of value.now ∷ []) }
    ensures len { OnOk result (vec_len copies.new ≡ vec_len copies.old + 1) }
    ensures room { vec_capacity copies.new ≡ vec_capacity copies.old }
{
    match value {
        Value::Number(number) => copies.push_reserved(Value::Number(*number)),
        _ => copies.push_reserved(copies::value(alloc, value)?),
    }
    Ok(())
}

/// A copy of one of these values, whatever it is: nothing, where there is none of the number.
#[inline(never)]
fn copy_among(alloc: Global, values: &[Value], place: usize) -> Result<Value, AllocError>
    ensures { IfOk result (λ x. value_of x ≡ slice_index_or (values_of values.now) place v.Unallocated) }
{
    match object(values, place) {
        Some(value) => copies::value(alloc, value),
        None => Ok(Value::Unallocated),
    }
}

/// Copies of those of these values that are listed by their numbers.
fn copies_listed(
    alloc: Global,
    values: &[Value],
    places: &[usize],
) -> Result<Vec<Value>, AllocError>
    ensures { IfOk result (λ xs. values_of xs.items ≡ map (λ n. slice_index_or (values_of values.now) n v.Unallocated) places.now) }
{
    let mut copies = Vec::with_capacity(alloc, places.len())?;
    for place in places {
        match object(values, *place) {
            Some(Value::Number(number)) => copies.push_reserved(Value::Number(*number)),
            _ => copies.push_reserved(copy_among(alloc, values, *place)?),
        }
    }
    Ok(copies)
}

/// Copies of so many of these values, from the first on.
fn copies_of_first(alloc: Global, values: &[Value], count: usize) -> Result<Vec<Value>, AllocError>
    ensures { IfOk result (λ xs. values_of xs.items ≡ map (λ n. slice_index_or (values_of values.now) n v.Unallocated) (counted 0 count)) }
{
    let mut copies = Vec::with_capacity(alloc, count)?;
    for place in 0..count {
        match object(values, place) {
            Some(Value::Number(number)) => copies.push_reserved(Value::Number(*number)),
            _ => copies.push_reserved(copy_among(alloc, values, place)?),
        }
    }
    Ok(copies)
}

/// Copies of these values, by their numbers.
fn copies_among(
    alloc: Global,
    values: &[Value],
    numbers: &Numbers,
) -> Result<Vec<Value>, AllocError>
    ensures { IfOk result (λ xs. values_of xs.items ≡ map (λ n. slice_index_or (values_of values.now) n v.Unallocated) (numbers_of numbers.now)) }
{
    match numbers {
        Numbers::First(count) => copies_of_first(alloc, values, *count),
        Numbers::Listed(places) => copies_listed(alloc, values, places),
    }
}

/// The elements of an array.
fn elements_in(value: &Value) -> Option<&[Value]>
    ensures { IfSome result (λ vs. (n : ℕ) → slice_index_or (values_of vs.now) n v.Unallocated ≡ s.part (value_of value.now) (s.Element n ∷ [])) }
{
    match value {
        Value::Array(elements) => Some(&elements.values),
        _ => None,
    }
}

/// The elements of the array at a path.
fn elements_at<'a>(store: &'a Store, path: &Path) -> Option<&'a [Value]>
    ensures { IfSome result (λ vs. (n : ℕ) → slice_index_or (values_of vs.now) n v.Unallocated ≡ s.get (store_of store.now) (element_path (path_of path.now) [] n)) }
{
    match store.get(path) {
        Some(value) => elements_in(value),
        None => None,
    }
}

/// Copies of what stands in a part of elements of an array, found by its way from the root.
#[tactic(auto, using(f3_data::proofs::Counted::drop_at))]
fn copies_in_each(
    alloc: Global,
    store: &Store,
    array: &Path,
    numbers: &Numbers,
    tail: &[Step],
) -> Result<Vec<Value>, AllocError>
    ensures { IfOk result (λ xs. values_of xs.items ≡ map (s.get (store_of store.now)) (map (element_path (path_of array.now) (steps_of tail.now)) (numbers_of numbers.now))) }
{
    let count = length_of(numbers);
    let mut copies = Vec::with_capacity(alloc, count)?;
    let mut path = element_path(alloc, array, 0, tail)?;
    for k in 0..count {
        go_to(&mut path, array, place_at(numbers, k));
        copies.push(copy_at(alloc, store, &path)?)?;
    }
    Ok(copies)
}

/// Copies of what a section means of the array at a path.
fn copies_at(
    alloc: Global,
    store: &Store,
    array: &Path,
    section: &Section,
) -> Result<Vec<Value>, AllocError>
    ensures { IfOk result (λ xs. values_of xs.items ≡ map (s.get (store_of store.now)) (map (element_path (path_of array.now) (steps_of section.now.tail.items)) (numbers_of section.now.numbers))) }
{
    if section.tail.is_empty() {
        if let Some(values) = elements_at(store, array) {
            return copies_among(alloc, values, &section.numbers);
        }
    }
    copies_in_each(alloc, store, array, &section.numbers, &section.tail)
}

/// A copy of what stands at a reference, with the bounds that LBOUND and UBOUND tell.
#[tactic(auto, using(crate::proofs::Arrays::array_is))]
pub fn read(alloc: Global, reference: &Reference, store: &Store) -> Result<Value, AllocError>
    ensures { IfOk result (λ x. value_of x ≡ held_at (store_of store.now) (path_of reference.now.path) (reach_in (path_of reference.now.path) reference.now.reach)) }
{
    match &reference.reach {
        Reach::One => copy_at(alloc, store, &reference.path),
        Reach::Many(section) => {
            let mut spans = copies::spans(alloc, &section.spans)?;
            show(&mut spans);
            let values = copies_at(alloc, store, &reference.path, section)?;
            array(alloc, spans, values)
        }
    }
}
