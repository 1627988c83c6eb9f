//! What references reach.

ghost use Rattle.std.specs.Prelude.{◌≡◌, IfOk, OnOk};
ghost use Rattle.f3_meaning_whole.specs.Value.{shown, from_one};
ghost use Rattle.f3_meaning_whole.specs.Store as s;
ghost use Rattle.f3_meaning_whole.specs.Reference as m;
ghost use Rattle.f3_data.specs.Values.{value_of, spans_of};
ghost use Rattle.f3_data.specs.Stores.{path_of, store_of};
ghost use Rattle.f3_data.specs.References.{reach_in};

use f3_data::reference::{Numbers, Reach, Section};
use f3_data::store::{Path, Store};
use f3_data::value::{Span, Value};
use std::alloc::{AllocError, Global};

/// What there is at a path that holds a value: an array's elements, with its bounds, or one object.
pub fn reach_of(alloc: Global, value: &Value) -> Result<Reach, AllocError>
    ensures { IfOk result (λ r. (p : s.Path) → reach_in p r ≡ m.reach_of p (value_of value.now)) }
{
    match value {
        Value::Array(elements) => {
            let section = Section {
                spans: Vec::from_slice(alloc, &elements.spans)?,
                numbers: Numbers::First(elements.values.len()),
                tail: Vec::new(alloc),
            };
            Ok(Reach::Many(Box::new(alloc, section)?))
        }
        _ => Ok(Reach::One),
    }
}

/// What there is at a path of a store.
pub fn reach_at(alloc: Global, store: &Store, path: &Path) -> Result<Reach, AllocError>
    ensures { IfOk result (λ r. (p : s.Path) → reach_in p r ≡ m.reach_of p (s.get (store_of store.now) (path_of path.now))) }
{
    match store.get(path) {
        Some(value) => reach_of(alloc, value),
        None => Ok(Reach::One),
    }
}

fn show_each(spans: &mut [Span])
    ensures { spans_of spans.new ≡ shown (spans_of spans.old) }
{
    for span in spans.iter_mut() {
        if span.extent == 0 {
            span.lower = 1;
        }
    }
}

/// Bounds as LBOUND and UBOUND tell them: from 1 in a dimension without subscripts (ISO/IEC 1539-1:2004, 13.7.60).
pub fn show(spans: &mut Vec<Span>)
    ensures { spans_of spans.new.items ≡ shown (spans_of spans.old.items) }
{
    show_each(spans);
}

fn count_each(spans: &mut [Span])
    ensures { spans_of spans.new ≡ from_one (spans_of spans.old) }
{
    for span in spans.iter_mut() {
        span.lower = 1;
    }
}

/// The same extents from 1 on.
pub fn count_from_one(spans: &mut Vec<Span>)
    ensures { spans_of spans.new.items ≡ from_one (spans_of spans.old.items) }
{
    count_each(spans);
}
