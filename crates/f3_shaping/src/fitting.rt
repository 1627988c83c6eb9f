//! Values of components, as structure constructors take them. What allocates answers `AllocError` where the host has no
//! memory for it.

ghost use Rattle.std.specs.Prelude.{◌≡◌, IfOk};
ghost use Rattle.f3_places.specs.declared.source.Place.{Place};
ghost use Rattle.f3_meaning_whole.specs.Act.{Here, fitted, fitted_contents, laid_out};
ghost use Rattle.f3_data.specs.Values.{spans_of, value_of};
ghost use Rattle.f3_shaping.specs.Results.{value_ran, held_ran, laid_ran};

use crate::bounds::{conforms, shown};
use crate::elements::spread_over;
use crate::initial::spans_declared;
use crate::operators::converted;
use f3_data::value::{Span, Value, array};
use f3_meaning_whole::run_error::RunError;
use f3_program::declarations::{Base, Declared};
use std::alloc::{AllocError, Global};

/// A value for an array of bounds, or a scalar where the rank is 0.
fn laid_out(alloc: Global, rank: usize, spans: Vec<Span>, value: Value) -> Result<Value, AllocError>
    ensures { IfOk result (λ r. value_of r ≡ laid_out rank (spans_of spans.items) (value_of value)) }
{
    if rank == 0 {
        drop(spans);
        return Ok(value);
    }
    let values = spread_over(alloc, &spans, value)?;
    array(alloc, spans, values)
}

/// A value as what an allocatable of a type holds.
#[tactic(auto, using(crate::proofs::Takes::given_then, crate::proofs::Takes::failed_then))]
fn held(alloc: Global, of: Base, value: Value) -> Result<Result<Value, RunError>, AllocError>
    ensures { IfOk result (λ r. (place : Place) → value_ran r place ≡ held_ran of (value_of value) place) }
{
    match converted(of, value) {
        Ok(value) => Ok(Ok(Value::Allocated(Box::new(alloc, value)?))),
        Err(error) => Ok(Err(error)),
    }
}

/// A value as one of a type, for an array of bounds, or a scalar where the rank is 0.
#[tactic(auto, using(crate::proofs::Takes::given_then, crate::proofs::Takes::failed_then))]
fn converted_out(
    alloc: Global,
    declared: &Declared,
    spans: Vec<Span>,
    value: Value,
) -> Result<Result<Value, RunError>, AllocError>
    ensures { IfOk result (λ r. (place : Place) → value_ran r place ≡ laid_ran declared.now (spans_of spans.items) (value_of value) place) }
{
    match converted(declared.kind.of, value) {
        Ok(value) => Ok(Ok(laid_out(alloc, declared.kind.rank, spans, value)?)),
        Err(error) => Ok(Err(error)),
    }
}

/// A component takes a value as by assignment to a new variable declared like it (own rule for ISO/IEC 1539-1:2004, 4.5.9).
///
/// `Overflow` where a number lies past the range of the type, `ShapesDiffer` (own rules).
#[tactic(auto, using(crate::proofs::Takes::takes_held, crate::proofs::Takes::takes_laid, crate::proofs::Takes::differs))]
pub fn fitted(
    alloc: Global,
    declared: &Declared,
    value: Value,
) -> Result<Result<Value, RunError>, AllocError>
    ensures { IfOk result (λ r. (here : Here) → value_ran r here.place ≡ fitted declared.now (value_of value) here) }
{
    if declared.kind.is_allocatable {
        return held(alloc, declared.kind.of, value);
    }
    let spans = spans_declared(alloc, &declared.dimensions)?;
    if conforms(&spans, &value) {
        return converted_out(alloc, declared, spans, value);
    }
    drop(spans);
    drop(value);
    Ok(Err(RunError::ShapesDiffer))
}

/// A component takes what a whole allocatable holds; where that is unallocated, so is the component (4.5.9).
///
/// `Overflow` where a number lies past the range of the type, `ShapesDiffer` (own rules).
#[tactic(auto, using(crate::proofs::Takes::takes_contents))]
pub fn fitted_contents(
    alloc: Global,
    declared: &Declared,
    value: Value,
) -> Result<Result<Value, RunError>, AllocError>
    ensures { IfOk result (λ r. (here : Here) → value_ran r here.place ≡ fitted_contents declared.now (value_of value) here) }
{
    match value {
        Value::Allocated(held) => fitted(alloc, declared, shown(Box::into_inner(held))),
        other => {
            drop(other);
            Ok(Ok(Value::Unallocated))
        }
    }
}
