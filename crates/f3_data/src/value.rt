//! Values.

ghost use Rattle.std.specs.Prelude.{◌≡◌, IfOk};
ghost use Rattle.f3_meaning_whole.specs.Value as m;
ghost use Rattle.f3_meaning_whole.specs.Value.{joined, number_of, truth_of, is_allocated, spans_of};
ghost use Rattle.f3_meaning_whole.specs.Act.{needs_storage};
ghost use Rattle.f3_meaning_whole.specs.Arithmetic.{constant_value};
ghost use Rattle.f3_data.specs.Values as view;
ghost use Rattle.f3_data.specs.Values.{value_of, values_of};

use f3_program::declarations::Constant;
use std::alloc::{AllocError, Global};

/// A dimension of an array: its lower bound, and how many subscripts it has (ISO/IEC 1539-1:2004, 5.1.2.5).
#[derive(Clone, Copy, PartialEq, Eq, Debug)]
pub struct Span {
    pub lower: i64,
    pub extent: u64,
}

/// What an object holds: a whole number, a truth value, the components of a derived type in their order, the elements of an
/// array in array element order (6.2.2.2), or, where it is allocatable, nothing or a value.
#[cycle(value)]
#[derive(Drop)]
pub enum Value {
    Number(i64),
    Truth(bool),
    Composite(Vec<Value>),
    Array(Box<Elements>),
    Unallocated,
    Allocated(Box<Value>),
}

/// The elements of an array in array element order (6.2.2.2), and its bounds.
#[cycle(value)]
#[derive(Drop)]
pub struct Elements {
    pub spans: Vec<Span>,
    pub values: Vec<Value>,
}

/// The value of a derived type with these components.
pub fn composite(components: Vec<Value>) -> Value
    ensures { value_of result ≡ m.Composite (joined (values_of components.items)) }
{
    Value::Composite(components)
}

/// An array of bounds with these elements.
///
/// `AllocError` where the host has no memory for it.
pub fn array(alloc: Global, spans: Vec<Span>, values: Vec<Value>) -> Result<Value, AllocError>
    ensures { IfOk result (λ r. value_of r ≡ m.Array (view.spans_of spans.items) (joined (values_of values.items))) }
{
    let elements = Box::new(alloc, Elements { spans, values })?;
    Ok(Value::Array(elements))
}

/// The number that a value is, or 0.
pub fn number_of(value: &Value) -> i64
    ensures { result ≡ number_of (value_of value.now) }
{
    match value {
        Value::Number(number) => *number,
        _ => 0,
    }
}

/// Whether a value is the truth value `.TRUE.`.
pub fn truth_of(value: &Value) -> bool
    ensures { result ≡ truth_of (value_of value.now) }
{
    match value {
        Value::Truth(truth) => *truth,
        _ => false,
    }
}

/// Whether a value is that of an allocatable that holds one.
pub fn is_allocated(value: &Value) -> bool
    ensures { result ≡ is_allocated (value_of value.now) }
{
    match value {
        Value::Allocated(_) => true,
        _ => false,
    }
}

/// Whether a copy of a value needs storage: one of array or derived type, or an allocated object.
pub fn needs_storage(value: &Value) -> bool
    ensures { result ≡ needs_storage (value_of value.now) }
{
    match value {
        Value::Composite(_) | Value::Array(_) | Value::Allocated(_) => true,
        _ => false,
    }
}

/// The bounds of an array, and none of another value.
pub fn spans_of(value: &Value) -> &[Span]
    ensures { view.spans_of result.now ≡ spans_of (value_of value.now) }
{
    match value {
        Value::Array(elements) => &elements.spans,
        _ => &[],
    }
}

/// The value of a constant.
pub fn constant(constant: Constant) -> Value
    ensures { value_of result ≡ constant_value constant }
{
    match constant {
        Constant::Number(number) => Value::Number(number),
        Constant::Truth(truth) => Value::Truth(truth),
    }
}

/// A value as a scalar: 0 where it is none.
pub fn scalar(value: &Value) -> Constant
    ensures number { number_of (constant_value result) ≡ number_of (value_of value.now) }
    ensures truth { truth_of (constant_value result) ≡ truth_of (value_of value.now) }
{
    match value {
        Value::Number(number) => Constant::Number(*number),
        Value::Truth(truth) => Constant::Truth(*truth),
        _ => Constant::Number(0),
    }
}
