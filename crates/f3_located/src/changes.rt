//! Changes of objects.

ghost use Rattle.std.specs.Prelude.{◌≡◌, ℕ, ◌∷◌, [], true, IfOk, OnOk, length, map, replicate};
ghost use Rattle.f3_meaning_whole.specs.Value as v;
ghost use Rattle.f3_meaning_whole.specs.Value.{spread};
ghost use Rattle.f3_meaning_whole.specs.Store.{get, put_all};
ghost use Rattle.f3_meaning_whole.specs.Reference.{paths};
ghost use Rattle.f3_located.specs.Inner.Kinds.{is_array};
ghost use Rattle.f3_data.specs.Values.{value_of, values_of};
ghost use Rattle.f3_data.specs.Stores.{steps_of, path_of, store_of};
ghost use Rattle.f3_data.specs.References.{element_path, numbers_of, reference_of};

use crate::elements::{element_path, go_to, length_of, place_at};
use crate::reads::push_copy;
use f3_data::copies;
use f3_data::reference::{Numbers, Reach, Reference};
use f3_data::store::{Path, Step, Store};
use f3_data::value::{Elements, Value, array};
use std::alloc::{AllocError, Global};

/// An object takes the first of these values, if there is one.
fn put_first(store: &mut Store, path: &Path, mut values: Vec<Value>)
    ensures { store_of store.new ≡ put_all (path_of path.now ∷ []) (values_of values.items) (store_of store.old) }
{
    if !values.is_empty() {
        store.put(path, values.swap_remove(0));
    }
}

/// Copies of a value.
#[tactic(auto, using(crate::proofs::Spreading::replicate_pred))]
fn copies_of(alloc: Global, value: &Value, count: usize) -> Result<Vec<Value>, AllocError>
    ensures { IfOk result (λ xs. values_of xs.items ≡ replicate count (value_of value.now)) }
{
    let mut copies = Vec::with_capacity(alloc, count)?;
    let mut left = count;
    while left > 0 {
        push_copy(alloc, &mut copies, value)?;
        left -= 1;
    }
    Ok(copies)
}

fn is_array(value: &Value) -> bool
    ensures { result ≡ is_array (value_of value.now) }
{
    match value {
        Value::Array(_) => true,
        _ => false,
    }
}

/// The elements of an array.
#[tactic(auto, using(crate::proofs::Spreading::spread_elements))]
fn elements_of(alloc: Global, value: Value) -> Vec<Value>
    ensures { is_array (value_of value) ≡ true → (n : ℕ) → values_of result.items ≡ spread n (value_of value) }
{
    match value {
        Value::Array(elements) => {
            let Elements { spans, values } = Box::into_inner(elements);
            drop(spans);
            values
        }
        other => {
            drop(other);
            Vec::new(alloc)
        }
    }
}

/// One value for each of so many elements: those of an array, or the same for all.
#[tactic(auto, using(crate::proofs::Spreading::spread_scalar))]
fn spread_over(alloc: Global, value: Value, count: usize) -> Result<Vec<Value>, AllocError>
    ensures { IfOk result (λ xs. values_of xs.items ≡ spread count (value_of value)) }
{
    if is_array(&value) {
        Ok(elements_of(alloc, value))
    } else {
        let copies = copies_of(alloc, &value, count)?;
        drop(value);
        Ok(copies)
    }
}

/// An object takes a value.
#[tactic(auto, using(crate::proofs::Spreading::spread_one))]
fn set_one(alloc: Global, store: &mut Store, path: &Path, value: Value)
    ensures { store_of store.new ≡ put_all (path_of path.now ∷ []) (spread 1 (value_of value)) (store_of store.old) }
{
    if is_array(&value) {
        put_first(store, path, elements_of(alloc, value));
    } else {
        store.put(path, value);
    }
}

/// The objects of a reference take a value: an array's elements in order, or one for all.
#[tactic(auto, using(crate::proofs::Arrays::mapped_length))]
pub fn set(
    alloc: Global,
    store: &mut Store,
    reference: &Reference,
    value: Value,
) -> Result<(), AllocError>
    ensures { OnOk result (store_of store.new ≡ put_all (paths (reference_of reference.now)) (spread (length (paths (reference_of reference.now))) (value_of value)) (store_of store.old)) }
{
    match &reference.reach {
        Reach::One => {
            set_one(alloc, store, &reference.path, value);
            Ok(())
        }
        Reach::Many(section) => {
            let values = spread_over(alloc, value, length_of(&section.numbers))?;
            store.put_each(&reference.path, &section.numbers, &section.tail, values);
            Ok(())
        }
    }
}

/// A copy of a value with nothing allocated beneath.
#[cycle(clearing)]
fn cleared(alloc: Global, value: &Value) -> Result<Value, AllocError>
    ensures { IfOk result (λ x. value_of x ≡ v.cleared (value_of value.now)) }
{
    match value {
        Value::Number(number) => Ok(Value::Number(*number)),
        Value::Truth(truth) => Ok(Value::Truth(*truth)),
        Value::Composite(values) => Ok(Value::Composite(all_cleared(alloc, values)?)),
        Value::Array(elements) => {
            let bounds = copies::spans(alloc, &elements.spans)?;
            array(alloc, bounds, all_cleared(alloc, &elements.values)?)
        }
        Value::Unallocated => Ok(Value::Unallocated),
        Value::Allocated(_) => Ok(Value::Unallocated),
    }
}

#[cycle(clearing)]
fn all_cleared(alloc: Global, values: &[Value]) -> Result<Vec<Value>, AllocError>
    ensures { IfOk result (λ xs. values_of xs.items ≡ map v.cleared (values_of values.now)) }
{
    let mut all = Vec::with_capacity(alloc, values.len())?;
    for value in values {
        all.push(cleared(alloc, value)?)?;
    }
    Ok(all)
}

/// A copy of what stands at a path, with nothing allocated beneath.
fn cleared_at(alloc: Global, store: &Store, path: &Path) -> Result<Value, AllocError>
    ensures { IfOk result (λ x. value_of x ≡ v.cleared (get (store_of store.now) (path_of path.now))) }
{
    match store.get(path) {
        Some(value) => cleared(alloc, value),
        None => Ok(Value::Unallocated),
    }
}

/// So of a part of elements of an array.
#[tactic(auto, using(f3_data::proofs::Counted::drop_at))]
fn each_cleared(
    alloc: Global,
    store: &Store,
    array: &Path,
    numbers: &Numbers,
    tail: &[Step],
) -> Result<Vec<Value>, AllocError>
    ensures { IfOk result (λ xs. values_of xs.items ≡ map (λ p. v.cleared (get (store_of store.now) p)) (map (element_path (path_of array.now) (steps_of tail.now)) (numbers_of numbers.now))) }
{
    let count = length_of(numbers);
    let mut all = Vec::with_capacity(alloc, count)?;
    let mut path = element_path(alloc, array, 0, tail)?;
    for k in 0..count {
        go_to(&mut path, array, place_at(numbers, k));
        all.push(cleared_at(alloc, store, &path)?)?;
    }
    Ok(all)
}

/// What is allocated beneath the objects of a reference is freed.
pub fn clear(alloc: Global, store: &mut Store, reference: &Reference) -> Result<(), AllocError>
    ensures { OnOk result (store_of store.new ≡ put_all (paths (reference_of reference.now)) (map (λ p. v.cleared (get (store_of store.old) p)) (paths (reference_of reference.now))) (store_of store.old)) }
{
    match &reference.reach {
        Reach::One => {
            let value = cleared_at(alloc, store, &reference.path)?;
            store.put(&reference.path, value);
            Ok(())
        }
        Reach::Many(section) => {
            let values = each_cleared(
                alloc,
                store,
                &reference.path,
                &section.numbers,
                &section.tail,
            )?;
            store.put_each(&reference.path, &section.numbers, &section.tail, values);
            Ok(())
        }
    }
}
