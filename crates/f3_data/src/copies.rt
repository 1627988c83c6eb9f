//! Copies of what a run holds in memory. Each answers `AllocError` where the host has no memory for it.

ghost use Rattle.std.specs.Prelude.{◌≡◌, IfOk};
ghost use Rattle.f3_meaning_whole.specs.Store as s;
ghost use Rattle.f3_data.specs.Values.{value_of, values_of, spans_of};
ghost use Rattle.f3_data.specs.Stores.{steps_of, path_of};
ghost use Rattle.f3_data.specs.References.{numbers_of, section_in, reach_in, reference_of, references_of};

use crate::reference::{Made, Numbers, Reach, Reference, Section};
use crate::store::{Path, Step};
use crate::value::{Span, Value, array};
use std::alloc::{AllocError, Global};

/// A copy of bounds.
pub fn spans(alloc: Global, spans: &[Span]) -> Result<Vec<Span>, AllocError>
    ensures { IfOk result (λ r. r.items ≡ spans.now) }
{
    spans.iter().copied().collect(alloc)
}

/// A copy of steps.
pub fn steps(alloc: Global, steps: &[Step]) -> Result<Vec<Step>, AllocError>
    ensures { IfOk result (λ r. r.items ≡ steps.now) }
{
    steps.iter().copied().collect(alloc)
}

/// A copy of a value.
#[cycle(copying)]
pub fn value(alloc: Global, original: &Value) -> Result<Value, AllocError>
    ensures { IfOk result (λ r. value_of r ≡ value_of original.now) }
{
    match original {
        Value::Number(number) => Ok(Value::Number(*number)),
        Value::Truth(truth) => Ok(Value::Truth(*truth)),
        Value::Composite(all) => Ok(Value::Composite(values(alloc, all)?)),
        Value::Array(elements) => {
            let bounds = spans(alloc, &elements.spans)?;
            array(alloc, bounds, values(alloc, &elements.values)?)
        }
        Value::Unallocated => Ok(Value::Unallocated),
        Value::Allocated(held) => {
            let copy = value(alloc, held)?;
            Ok(Value::Allocated(Box::new(alloc, copy)?))
        }
    }
}

/// A copy of values.
#[cycle(copying)]
pub fn values(alloc: Global, originals: &[Value]) -> Result<Vec<Value>, AllocError>
    ensures { IfOk result (λ r. values_of r.items ≡ values_of originals.now) }
{
    let mut copies = Vec::with_capacity(alloc, originals.len())?;
    for original in originals {
        match original {
            Value::Number(number) => copies.push_reserved(Value::Number(*number)),
            Value::Truth(truth) => copies.push_reserved(Value::Truth(*truth)),
            _ => copies.push_reserved(value(alloc, original)?),
        }
    }
    Ok(copies)
}

/// A copy of a path.
pub fn path(alloc: Global, original: &Path) -> Result<Path, AllocError>
    ensures { IfOk result (λ r. path_of r ≡ path_of original.now) }
{
    Ok(Path {
        root: original.root,
        steps: steps(alloc, &original.steps)?,
    })
}

/// A copy of the places of elements.
pub fn numbers(alloc: Global, original: &Numbers) -> Result<Numbers, AllocError>
    ensures { IfOk result (λ r. numbers_of r ≡ numbers_of original.now) }
{
    match original {
        Numbers::First(n) => Ok(Numbers::First(*n)),
        Numbers::Listed(places) => Ok(Numbers::Listed(places.iter().copied().collect(alloc)?)),
    }
}

/// A copy of what a reference reaches.
pub fn reach(alloc: Global, original: &Reach) -> Result<Reach, AllocError>
    ensures { IfOk result (λ r. (p : s.Path) → reach_in p r ≡ reach_in p original.now) }
{
    match original {
        Reach::One => Ok(Reach::One),
        Reach::Many(original) => {
            let copy = section(alloc, original)?;
            Ok(Reach::Many(Box::new(alloc, copy)?))
        }
    }
}

/// A copy of a section.
fn section(alloc: Global, original: &Section) -> Result<Section, AllocError>
    ensures { IfOk result (λ r. (p : s.Path) → section_in p r ≡ section_in p original.now) }
{
    let bounds = spans(alloc, &original.spans)?;
    let numbers = numbers(alloc, &original.numbers)?;
    let tail = steps(alloc, &original.tail)?;
    Ok(Section {
        spans: bounds,
        numbers,
        tail,
    })
}

/// A copy of a reference to an object that is part of no other, or of a part of one.
#[inline(never)]
fn reference_of_any(alloc: Global, original: &Reference) -> Result<Reference, AllocError>
    ensures { IfOk result (λ r. reference_of r ≡ reference_of original.now) }
{
    let path = path(alloc, &original.path)?;
    let reach = reach(alloc, &original.reach)?;
    let makers = makers(alloc, &original.makers)?;
    Ok(Reference {
        path,
        reach,
        of: original.of,
        right: original.right,
        origin: original.origin,
        makers,
    })
}

/// A copy of a reference.
pub fn reference(alloc: Global, original: &Reference) -> Result<Reference, AllocError>
    ensures { IfOk result (λ r. reference_of r ≡ reference_of original.now) }
{
    let is_whole = original.path.steps.is_empty() && original.makers.is_empty();
    match &original.reach {
        Reach::One if is_whole => Ok(Reference {
            path: Path {
                root: original.path.root,
                steps: Vec::new(alloc),
            },
            reach: Reach::One,
            of: original.of,
            right: original.right,
            origin: original.origin,
            makers: Vec::new(alloc),
        }),
        _ => reference_of_any(alloc, original),
    }
}

/// A copy of selected components.
fn makers(alloc: Global, makers: &[Made]) -> Result<Vec<Made>, AllocError>
    ensures { IfOk result (λ r. r.items ≡ makers.now) }
{
    makers.iter().copied().collect(alloc)
}

/// A copy of references.
pub fn references(alloc: Global, originals: &[Reference]) -> Result<Vec<Reference>, AllocError>
    ensures { IfOk result (λ r. references_of r.items ≡ references_of originals.now) }
{
    let mut copies = Vec::new(alloc);
    for original in originals {
        copies.push(reference(alloc, original)?)?;
    }
    Ok(copies)
}
