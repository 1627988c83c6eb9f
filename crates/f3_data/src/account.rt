//! How many words of a heap values take, up to multiples of 2 ^ 64.

ghost use Rattle.std.specs.Prelude.{◌≡◌, true, ◌%◌, ◌^◌};
ghost use Rattle.f3_meaning_whole.specs.Value.{joined};
ghost use Rattle.f3_code.specs.Account.{block, words, objects, all_objects, level_words, levels_words};
ghost use Rattle.f3_data.specs.Values.{value_of, values_of};
ghost use Rattle.f3_data.specs.Stores.{levels_of};

use crate::value::Value;

/// What a block of so many words takes (own rule).
pub fn block(words: u64) -> u64
    ensures { result ≡ block words % 2 ^ 64 }
{
    words.wrapping_add(3)
}

/// What a value takes (own rule).
#[cycle(counting)]
pub fn words(value: &Value) -> u64
    ensures { result ≡ words (value_of value.now) % 2 ^ 64 }
{
    match value {
        Value::Number(_) | Value::Truth(_) | Value::Unallocated => 1,
        Value::Composite(values) => level_words(values),
        Value::Array(elements) => level_words(&elements.values),
        Value::Allocated(held) => block(words(held)).wrapping_add(1),
    }
}

/// What values take together (own rule).
#[cycle(counting)]
pub fn level_words(values: &[Value]) -> u64
    ensures { result ≡ level_words (values_of values.now) % 2 ^ 64 }
{
    let mut sum: u64 = 0;
    for value in values {
        match value {
            Value::Number(_) | Value::Truth(_) | Value::Unallocated => sum = sum.wrapping_add(1),
            _ => sum = sum.wrapping_add(words(value)),
        }
    }
    sum
}

/// What levels take, each of them one block (own rule).
pub fn levels_words(levels: &[Vec<Value>]) -> u64
    ensures { result ≡ levels_words (levels_of levels.now) % 2 ^ 64 }
{
    let mut sum: u64 = 0;
    for values in levels {
        sum = sum.wrapping_add(block(level_words(values)));
    }
    sum
}

/// Whether nothing is allocated in a value: a scalar, or an object that is unallocated.
#[inline(always)]
fn holds_nothing(value: &Value) -> bool
    ensures { result ≡ true → objects (value_of value.now) ≡ 0 }
{
    match value {
        Value::Number(_) | Value::Truth(_) | Value::Unallocated => true,
        _ => false,
    }
}

/// What the blocks of the objects take that are allocated in a value, and beneath these (own rule).
#[cycle(holding)]
pub fn objects(value: &Value) -> u64
    ensures { result ≡ objects (value_of value.now) % 2 ^ 64 }
{
    match value {
        Value::Number(_) | Value::Truth(_) | Value::Unallocated => 0,
        Value::Composite(values) => all_objects(values),
        Value::Array(elements) => all_objects(&elements.values),
        Value::Allocated(held) => block(words(held)),
    }
}

/// The same of values together (own rule).
#[cycle(holding)]
pub fn all_objects(values: &[Value]) -> u64
    ensures { result ≡ all_objects (joined (values_of values.now)) % 2 ^ 64 }
{
    let mut sum: u64 = 0;
    for value in values {
        if !holds_nothing(value) {
            sum = sum.wrapping_add(objects(value));
        }
    }
    sum
}
