//! Bounds and shapes of arrays.

ghost use Rattle.std.specs.Prelude.{◌≡◌, ◌≤◌, ◌^◌, MatchOption, ◌||◌, nat_lt, nat_eq, pos, if◌then◌else◌};
ghost use Rattle.f3_meaning_whole.specs.Value.{shown, from_one, plain, same_extents, conforms, count};
ghost use Rattle.f3_meaning_whole.specs.Exec.{too_many};
ghost use Rattle.f3_data.specs.Values.{spans_of, value_of};
ghost use Rattle.f3_shaping.specs.Results.{shown_value};

use f3_data::value::{Span, Value};

/// The most elements that an ALLOCATE makes (own rule for ISO/IEC 1539-1:2004, 6.3.1).
const MOST_ELEMENTS: u64 = 16_777_216;

/// How many elements an array of bounds has (6.2.2.2): none where they are 2 to the 64 or more.
pub fn count(spans: &[Span]) -> Option<u64>
    ensures { MatchOption result (2 ^ 64 ≤ count (spans_of spans.now)) (λ n. n ≡ count (spans_of spans.now)) }
{
    let Some((first, others)) = spans.split_first() else {
        return Some(1);
    };
    match count(others) {
        Some(n) => first.extent.checked_mul(n),
        None if first.extent == 0 => Some(0),
        None => None,
    }
}

/// Whether a dimension has more subscripts than a signed number of 64 bits tells.
fn too_many(spans: &[Span]) -> bool
    ensures { result ≡ too_many (spans_of spans.now) }
{
    let Some((first, others)) = spans.split_first() else {
        return false;
    };
    first.extent >= 0x8000_0000_0000_0000 || too_many(others)
}

/// Whether an array of bounds is too large for an ALLOCATE (own rule for 6.3.1).
pub fn is_too_large(spans: &[Span]) -> bool
    ensures { result ≡ (too_many (spans_of spans.now) || nat_lt 16777216 (count (spans_of spans.now))) }
{
    if too_many(spans) {
        return true;
    }
    match count(spans) {
        Some(n) => n > MOST_ELEMENTS,
        None => true,
    }
}

/// Whether arrays have the same shape (2.4.5).
pub fn same_extents(spans: &[Span], others: &[Span]) -> bool
    ensures { result ≡ same_extents (spans_of spans.now) (spans_of others.now) }
{
    match (spans.split_first(), others.split_first()) {
        (None, None) => true,
        (Some((x, xs)), Some((y, ys))) => x.extent == y.extent && same_extents(xs, ys),
        _ => false,
    }
}

/// Whether a value conforms to an array of bounds: a scalar, or an array of the same shape (7.1.5).
#[tactic(auto, using(f3_data::proofs::Rows::array_is))]
pub fn conforms(spans: &[Span], value: &Value) -> bool
    ensures { result ≡ conforms (spans_of spans.now) (value_of value.now) }
{
    match value {
        Value::Array(others) => same_extents(spans, &others.spans),
        _ => true,
    }
}

/// Bounds get lower bounds of 1.
pub fn begin_at_one(spans: &mut [Span])
    ensures { spans_of spans.new ≡ from_one (spans_of spans.old) }
{
    for span in spans.iter_mut() {
        span.lower = 1;
    }
}

/// The lower bound that LBOUND tells (13.7.60).
fn shown_lower(span: Span) -> i64
    ensures { result ≡ (if nat_eq span.extent 0 then pos 1 else span.lower) }
{
    if span.extent == 0 { 1 } else { span.lower }
}

/// Bounds become those that LBOUND and UBOUND tell: from 1 in a dimension without subscripts (13.7.60).
pub fn show(spans: &mut [Span])
    ensures { spans_of spans.new ≡ shown (spans_of spans.old) }
{
    for span in spans.iter_mut() {
        span.lower = shown_lower(*span);
    }
}

/// The value of an expression that is no variable: its bounds are from 1 on.
#[tactic(auto, using(f3_data::proofs::Rows::array_is))]
pub fn plain(value: Value) -> Value
    ensures { value_of result ≡ plain (value_of value) }
{
    match value {
        Value::Array(mut elements) => {
            begin_at_one(&mut elements.spans);
            Value::Array(elements)
        }
        other => other,
    }
}

/// A value with the bounds that LBOUND and UBOUND tell (13.7.60).
pub fn shown(value: Value) -> Value
    ensures { value_of result ≡ shown_value (value_of value) }
{
    match value {
        Value::Array(mut elements) => {
            show(&mut elements.spans);
            Value::Array(elements)
        }
        other => other,
    }
}
