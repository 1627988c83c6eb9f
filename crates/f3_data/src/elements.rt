//! Elements of arrays that take values, each its own.

ghost use Rattle.std.specs.Prelude.{◌≡◌, ◌∷◌, [], ◌+◌, ◌%◌, ◌^◌, List, true, false, drop};
ghost use Rattle.f3_meaning_whole.specs.Value as m;
ghost use Rattle.f3_meaning_whole.specs.Value.{joined};
ghost use Rattle.f3_meaning_whole.specs.Store.{with_part, with_part_at};
ghost use Rattle.f3_code.specs.Account.{words, row};
ghost use Rattle.f3_data.specs.Values.{value_of, values_of};
ghost use Rattle.f3_data.specs.Stores.{steps_of};
ghost use Rattle.f3_data.specs.References.{counted, numbers_of};
ghost use Rattle.f3_data.specs.Each.{row_with, with_each};

use crate::account::words;
use crate::parts::{exchange, set};
use crate::reference::Numbers;
use crate::store::Step;
use crate::value::Value;
use f3_program::declarations::Constant;

/// A value that is no scalar takes the place of a part of another. How many words more that takes, up to multiples of 2 ^ 64
/// (own rule).
#[inline(never)]
fn take_any(value: &mut Value, tail: &[Step], mut new: Value) -> u64
    ensures grown { (words (value_of value.old) + result) % 2 ^ 64 ≡ words (value_of value.new) % 2 ^ 64 }
    ensures value { value_of value.new ≡ with_part (value_of value.old) (steps_of tail.now) (value_of new) }
{
    let come = words(&new);
    exchange(value, tail, &mut new);
    let grown = come.wrapping_sub(words(&new));
    drop(new);
    grown
}

/// A value takes the place of a part of another, a scalar in place. How many words more that takes.
fn take(value: &mut Value, tail: &[Step], new: Value) -> u64
    ensures grown { (words (value_of value.old) + result) % 2 ^ 64 ≡ words (value_of value.new) % 2 ^ 64 }
    ensures value { value_of value.new ≡ with_part (value_of value.old) (steps_of tail.now) (value_of new) }
{
    match new {
        Value::Number(number) => set(value, tail, Constant::Number(number)),
        Value::Truth(truth) => set(value, tail, Constant::Truth(truth)),
        other => take_any(value, tail, other),
    }
}

/// An element takes a value in a part of it; nothing happens where there is none. How many words more the elements take.
#[inline(never)]
fn take_any_at(values: &mut Vec<Value>, place: usize, tail: &[Step], new: Value) -> u64
    ensures grown { (row (joined (values_of values.old.items)) + result) % 2 ^ 64 ≡ row (joined (values_of values.new.items)) % 2 ^ 64 }
    ensures values { joined (values_of values.new.items) ≡ with_part_at (joined (values_of values.old.items)) place (steps_of tail.now) (value_of new) }
{
    if place < values.len() {
        take(&mut values[place], tail, new)
    } else {
        drop(new);
        0
    }
}

/// A number takes the place of a number: whether it did.
#[inline(always)]
fn overwrite(value: &mut Value, number: i64) -> bool
    ensures grown { result ≡ true → words (value_of value.old) ≡ words (value_of value.new) }
    ensures value { result ≡ true → value_of value.new ≡ m.Number number }
    ensures kept { result ≡ false → value.new ≡ value.old }
{
    match value {
        Value::Number(old) => {
            *old = number;
            true
        }
        _ => false,
    }
}

/// A number takes the place of an element that is one: whether it did.
#[inline(always)]
fn overwrite_at(values: &mut Vec<Value>, place: usize, number: i64) -> bool
    ensures grown { result ≡ true → row (joined (values_of values.old.items)) ≡ row (joined (values_of values.new.items)) }
    ensures values { result ≡ true → joined (values_of values.new.items) ≡ with_part_at (joined (values_of values.old.items)) place [] (m.Number number) }
    ensures kept { result ≡ false → values_of values.new.items ≡ values_of values.old.items }
{
    if place < values.len() {
        overwrite(&mut values[place], number)
    } else {
        false
    }
}

/// An element takes a number, whatever it is.
#[inline(never)]
fn take_any_number_at(values: &mut Vec<Value>, place: usize, number: i64) -> u64
    ensures grown { (row (joined (values_of values.old.items)) + result) % 2 ^ 64 ≡ row (joined (values_of values.new.items)) % 2 ^ 64 }
    ensures values { joined (values_of values.new.items) ≡ with_part_at (joined (values_of values.old.items)) place [] (m.Number number) }
{
    take_any_at(values, place, &[], Value::Number(number))
}

/// The same, without a call where it is a number.
#[inline(always)]
fn take_number_at(values: &mut Vec<Value>, place: usize, number: i64) -> u64
    ensures grown { (row (joined (values_of values.old.items)) + result) % 2 ^ 64 ≡ row (joined (values_of values.new.items)) % 2 ^ 64 }
    ensures values { joined (values_of values.new.items) ≡ with_part_at (joined (values_of values.old.items)) place [] (m.Number number) }
{
    if overwrite_at(values, place, number) {
        return 0;
    }
    take_any_number_at(values, place, number)
}

/// An element takes a value in a part of it, without a call where that is a number and takes one.
#[inline(always)]
fn take_at(values: &mut Vec<Value>, place: usize, tail: &[Step], new: Value) -> u64
    ensures grown { (row (joined (values_of values.old.items)) + result) % 2 ^ 64 ≡ row (joined (values_of values.new.items)) % 2 ^ 64 }
    ensures values { joined (values_of values.new.items) ≡ with_part_at (joined (values_of values.old.items)) place (steps_of tail.now) (value_of new) }
{
    match new {
        Value::Number(number) if tail.is_empty() => take_number_at(values, place, number),
        other => take_any_at(values, place, tail, other),
    }
}

/// The element of a number, among those that are listed, takes a value in a part of it.
#[inline(always)]
fn take_of(values: &mut Vec<Value>, places: &[usize], k: usize, tail: &[Step], new: Value) -> u64
    ensures grown { (row (joined (values_of values.old.items)) + result) % 2 ^ 64 ≡ row (joined (values_of values.new.items)) % 2 ^ 64 }
    ensures values { (xs : List m.Value) → row_with (joined (values_of values.new.items)) (steps_of tail.now) (drop (k + 1) places.now) xs ≡ row_with (joined (values_of values.old.items)) (steps_of tail.now) (drop k places.now) (value_of new ∷ xs) }
{
    if k < places.len() {
        take_at(values, places[k], tail, new)
    } else {
        drop(new);
        0
    }
}

/// Elements that are listed take values in a part of them, each its own. How many words more all take.
fn take_listed(values: &mut Vec<Value>, places: &[usize], tail: &[Step], news: Vec<Value>) -> u64
    ensures grown { (row (joined (values_of values.old.items)) + result) % 2 ^ 64 ≡ row (joined (values_of values.new.items)) % 2 ^ 64 }
    ensures values { joined (values_of values.new.items) ≡ row_with (joined (values_of values.old.items)) (steps_of tail.now) places.now (values_of news.items) }
{
    let mut grown: u64 = 0;
    let mut k = 0;
    for new in news {
        grown = grown.wrapping_add(take_of(values, places, k, tail, new));
        k += 1;
    }
    grown
}

/// The element of a number, among so many from the first on, takes a value in a part of it.
#[inline(always)]
fn take_of_first(values: &mut Vec<Value>, count: usize, k: usize, tail: &[Step], new: Value) -> u64
    ensures grown { (row (joined (values_of values.old.items)) + result) % 2 ^ 64 ≡ row (joined (values_of values.new.items)) % 2 ^ 64 }
    ensures values { (xs : List m.Value) → row_with (joined (values_of values.new.items)) (steps_of tail.now) (drop (k + 1) (counted 0 count)) xs ≡ row_with (joined (values_of values.old.items)) (steps_of tail.now) (drop k (counted 0 count)) (value_of new ∷ xs) }
{
    if k < count {
        take_at(values, k, tail, new)
    } else {
        drop(new);
        0
    }
}

/// So many elements from the first on take values in a part of them, each its own. How many words more all take.
fn take_first(values: &mut Vec<Value>, count: usize, tail: &[Step], news: Vec<Value>) -> u64
    ensures grown { (row (joined (values_of values.old.items)) + result) % 2 ^ 64 ≡ row (joined (values_of values.new.items)) % 2 ^ 64 }
    ensures values { joined (values_of values.new.items) ≡ row_with (joined (values_of values.old.items)) (steps_of tail.now) (counted 0 count) (values_of news.items) }
{
    let mut grown: u64 = 0;
    let mut k = 0;
    for new in news {
        grown = grown.wrapping_add(take_of_first(values, count, k, tail, new));
        k += 1;
    }
    grown
}

/// Elements take values in a part of them, each its own. How many words more all take.
fn take_in(values: &mut Vec<Value>, numbers: &Numbers, tail: &[Step], news: Vec<Value>) -> u64
    ensures grown { (row (joined (values_of values.old.items)) + result) % 2 ^ 64 ≡ row (joined (values_of values.new.items)) % 2 ^ 64 }
    ensures values { joined (values_of values.new.items) ≡ row_with (joined (values_of values.old.items)) (steps_of tail.now) (numbers_of numbers.now) (values_of news.items) }
{
    match numbers {
        Numbers::First(count) => take_first(values, *count, tail, news),
        Numbers::Listed(places) => take_listed(values, places, tail, news),
    }
}

/// The same of the elements of an array; nothing happens to another value.
pub(crate) fn take_each(
    value: &mut Value,
    numbers: &Numbers,
    tail: &[Step],
    news: Vec<Value>,
) -> u64
    ensures grown { (words (value_of value.old) + result) % 2 ^ 64 ≡ words (value_of value.new) % 2 ^ 64 }
    ensures value { value_of value.new ≡ with_each (value_of value.old) (steps_of tail.now) (numbers_of numbers.now) (values_of news.items) }
{
    match value {
        Value::Array(elements) => take_in(&mut elements.values, numbers, tail, news),
        _ => {
            drop(news);
            0
        }
    }
}
