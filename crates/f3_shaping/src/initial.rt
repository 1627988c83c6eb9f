//! The values with which objects begin. What allocates answers `AllocError` where the host has no memory for it.

ghost use Rattle.std.specs.Prelude.{◌≡◌, IfOk, map};
ghost use Rattle.f3_meaning_whole.specs.Value.{joined};
ghost use Rattle.f3_meaning_whole.specs.Arithmetic.{constant_value};
ghost use Rattle.f3_meaning_whole.specs.Shape.{shapes_of, shape_in, parts_in, spans_declared, initialized, initial_of, initial_parts, initial_declared};
ghost use Rattle.f3_meaning_whole.specs.Exec.{vacant};
ghost use Rattle.f3_shaping.specs.Results.{array_value};
ghost use Rattle.f3_data.specs.Values.{spans_of, value_of, values_of};

use crate::elements::{element_count, repeated};
use f3_data::copies;
use f3_data::value::{self, Span, Value, constant};
use f3_program::declarations::{Base, Component, Constant, Declared, Derived, Dimension};
use std::alloc::{AllocError, Global};

/// The bounds that are declared.
pub fn spans_declared(alloc: Global, dimensions: &[Dimension]) -> Result<Vec<Span>, AllocError>
    ensures { IfOk result (λ r. spans_of r.items ≡ spans_declared dimensions.now) }
{
    let mut spans = Vec::new(alloc);
    for dimension in dimensions {
        spans.push(Span {
            lower: dimension.lower,
            extent: dimension.extent,
        })?;
    }
    Ok(spans)
}

/// The values of constants.
fn constant_values(alloc: Global, constants: &[Constant]) -> Result<Vec<Value>, AllocError>
    ensures { IfOk result (λ r. values_of r.items ≡ map constant_value constants.now) }
{
    let mut values = Vec::new(alloc);
    for scalar in constants {
        values.push(constant(*scalar))?;
    }
    Ok(values)
}

/// The values of elements that are initialized so: with nothing, with one value for each, or with their own.
fn initialized(
    alloc: Global,
    n: usize,
    constants: &[Constant],
    element: &Value,
) -> Result<Vec<Value>, AllocError>
    ensures { IfOk result (λ r. values_of r.items ≡ initialized n constants.now (value_of element.now)) }
{
    let Some((first, others)) = constants.split_first() else {
        return repeated(alloc, n, element);
    };
    if others.is_empty() {
        return repeated(alloc, n, &constant(*first));
    }
    constant_values(alloc, constants)
}

/// An array that begins with constants.
fn array(
    alloc: Global,
    dimensions: &[Dimension],
    constants: &[Constant],
    element: &Value,
) -> Result<Value, AllocError>
    ensures { IfOk result (λ r. value_of r ≡ array_value dimensions.now constants.now (value_of element.now)) }
{
    let spans = spans_declared(alloc, dimensions)?;
    let values = initialized(alloc, element_count(&spans)?, constants, element)?;
    value::array(alloc, spans, values)
}

/// What is declared begins with this value, given that of an element (ISO/IEC 1539-1:2004, 4.5.3, 5.1; own rule for 16.5.6).
pub fn arranged(alloc: Global, declared: &Declared, element: Value) -> Result<Value, AllocError>
    ensures { IfOk result (λ r. value_of r ≡ initial_declared declared.now (value_of element)) }
{
    if declared.kind.is_allocatable {
        drop(element);
        return Ok(Value::Unallocated);
    }
    if declared.kind.rank > 0 {
        return array(alloc, &declared.dimensions, &declared.initial, &element);
    }
    match declared.initial.first() {
        Some(scalar) => {
            drop(element);
            Ok(constant(*scalar))
        }
        None => Ok(element),
    }
}

/// What is declared begins with this value, among the types of a program.
#[cycle(initial)]
pub fn initial_declared(
    alloc: Global,
    types: &[Derived],
    declared: &Declared,
) -> Result<Value, AllocError>
    ensures { IfOk result (λ r. value_of r ≡ initial_declared declared.now (initial_of (shape_in (shapes_of types.now) declared.now.kind.of))) }
{
    if declared.kind.is_allocatable {
        return Ok(Value::Unallocated);
    }
    let element = initial(alloc, types, declared.kind.of)?;
    arranged(alloc, declared, element)
}

/// The components of a type begin with these values.
#[cycle(initial)]
fn initial_parts(
    alloc: Global,
    types: &[Derived],
    components: &[Component],
) -> Result<Vec<Value>, AllocError>
    ensures { IfOk result (λ r. joined (values_of r.items) ≡ initial_parts (parts_in (shapes_of types.now) components.now)) }
{
    let mut values = Vec::new(alloc);
    for component in components {
        values.push(initial_declared(alloc, types, &component.declared)?)?;
    }
    Ok(values)
}

/// A scalar of a type begins with this value, among the types of a program: 0, `.FALSE.`, or the values of the components. A
/// type has components of types before it.
#[cycle(initial)]
pub fn initial(alloc: Global, types: &[Derived], of: Base) -> Result<Value, AllocError>
    ensures { IfOk result (λ r. value_of r ≡ initial_of (shape_in (shapes_of types.now) of)) }
{
    match of {
        Base::Integer | Base::Long => Ok(Value::Number(0)),
        Base::Logical => Ok(Value::Truth(false)),
        Base::Derived(t) => {
            if t >= types.len() {
                return Ok(Value::Number(0));
            }
            let values = initial_parts(alloc, &types[..t], &types[t].components)?;
            Ok(value::composite(values))
        }
    }
}

/// A new object of a rank and bounds begins with this value, given that of an element (6.3.1).
pub fn vacant(
    alloc: Global,
    rank: usize,
    spans: &[Span],
    element: &Value,
) -> Result<Value, AllocError>
    ensures { IfOk result (λ r. value_of r ≡ vacant rank (spans_of spans.now) (value_of element.now)) }
{
    if rank == 0 {
        return copies::value(alloc, element);
    }
    let values = repeated(alloc, element_count(spans)?, element)?;
    value::array(alloc, copies::spans(alloc, spans)?, values)
}
