//! What instructions do to the store.

ghost use Rattle.std.specs.Prelude.{◌≡◌};
ghost use Rattle.f3_meaning_whole.specs.Value as v;
ghost use Rattle.f3_meaning_whole.specs.Value.{conforms};
ghost use Rattle.f3_meaning_whole.specs.Store as s;
ghost use Rattle.f3_meaning_whole.specs.Reference as m;
ghost use Rattle.f3_meaning_whole.specs.Act as a;
ghost use Rattle.f3_meaning_whole.specs.Act.{Here};
ghost use Rattle.f3_data.specs.Values.{value_of, spans_of};
ghost use Rattle.f3_data.specs.Stores.{path_of, store_of};
ghost use Rattle.f3_data.specs.References.{reach_in, reference_of};
ghost use Rattle.f3_object_steps.specs.Taken.{PoppedPair, same};
ghost use Rattle.f3_object_steps.specs.Parts.{fills, takes, counts, on_assigned};
ghost use Rattle.f3_object_steps.specs.Performed.{Performed};

use crate::taking::{pop_datum, pop_object};
use f3_cells::cell::Cell;
use f3_cells::state::Stop;
use f3_data::reference::{Reach, Reference};
use f3_data::store::{Path, Store};
use f3_data::value::{Span, Value, number_of};
use f3_located::{changes, reads};
use f3_program::declarations::Base;
use f3_program::expression::BinaryOperator;
use f3_shaping::bounds::conforms;
use f3_shaping::operators::{binary, converted};
use std::alloc::Global;

/// The object on top and the value beneath, which are taken.
pub fn pop_assigned(stack: &mut Vec<Cell>) -> Option<(Reference, Value)>
    ensures { PoppedPair reference_of value_of on_assigned result stack.old.items stack.new.items }
{
    let Some(object) = pop_object(stack) else {
        return None;
    };
    let Some(value) = pop_datum(stack) else {
        drop(object);
        return None;
    };
    Some((object, value))
}

/// The bounds of what is meant: none of a scalar.
pub fn spans(object: &Reference) -> &[Span]
    ensures { spans_of result.now ≡ m.spans (reach_in (path_of object.now.path) object.now.reach) }
{
    match &object.reach {
        Reach::One => &[],
        Reach::Many(section) => &section.spans,
    }
}

/// Whether a value is no array of another shape than an object (ISO/IEC 1539-1:2004, 7.4.1.3).
pub fn has_shape(object: &Reference, value: &Value) -> bool
    ensures { result ≡ conforms (m.spans (reference_of object.now).reach) (value_of value.now) }
{
    conforms(spans(object), value)
}

/// A copy of what stands at a reference.
pub fn read(alloc: Global, store: &Store, object: Reference) -> Result<Value, Stop>
    ensures { Performed value_of (λ (here : Here). a.read (reference_of object) here) result store.now store.now }
{
    let found = reads::read(alloc, &object, store);
    drop(object);
    match found {
        Ok(value) => Ok(value),
        Err(_) => Err(Stop::Memory),
    }
}

/// The objects of a reference take a value.
pub fn set(alloc: Global, store: &mut Store, object: Reference, value: Value) -> Result<(), Stop>
    ensures { Performed same (λ (here : Here). a.set (reference_of object) (value_of value) here) result store.old store.new }
{
    let done = changes::set(alloc, store, &object, value);
    drop(object);
    match done {
        Ok(()) => Ok(()),
        Err(_) => Err(Stop::Memory),
    }
}

/// The number at a path, or 0.
fn number_at(store: &Store, path: &Path) -> i64
    ensures { result ≡ v.number_of (s.get (store_of store.now) (path_of path.now)) }
{
    match store.get(path) {
        Some(value) => number_of(value),
        None => 0,
    }
}

/// The variable of a DO, of a type, goes on by the step (8.1.6.4.2).
pub fn count_up(
    alloc: Global,
    store: &mut Store,
    object: Reference,
    of: Base,
    step: Value,
) -> Result<(), Stop>
    ensures { Performed same (λ (here : Here). counts of (reference_of object) (v.number_of (value_of step)) here) result store.old store.new }
{
    let old = number_at(store, &object.path);
    match binary(BinaryOperator::Add, of, Value::Number(old), step) {
        Ok(value) => set(alloc, store, object, value),
        Err(error) => {
            drop(object);
            Err(Stop::Failed(error))
        }
    }
}

/// The objects of a reference take a value, converted to a type, with storage for it, or in storage that it has.
pub fn assign(
    alloc: Global,
    store: &mut Store,
    object: Reference,
    of: Base,
    value: Value,
) -> Result<(), Stop>
    ensures fill { Performed same (λ (here : Here). fills of (reference_of object) (value_of value) here) result store.old store.new }
    ensures take { Performed same (λ (here : Here). takes of (reference_of object) (value_of value) here) result store.old store.new }
{
    match converted(of, value) {
        Ok(value) => set(alloc, store, object, value),
        Err(error) => {
            drop(object);
            Err(Stop::Failed(error))
        }
    }
}
