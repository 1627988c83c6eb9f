//! Bounds of arrays, as expressions ask for them.

ghost use Rattle.std.specs.Prelude.{◌≡◌, ◌<◌, ◌^◌, pos};
ghost use Rattle.f3_places.specs.declared.source.Place.{Place};
ghost use Rattle.f3_program.specs.declared.declarations.Base.TheVariants.{Integer};
ghost use Rattle.f3_meaning_whole.specs.Value as m;
ghost use Rattle.f3_meaning_whole.specs.Arithmetic.{converted};
ghost use Rattle.f3_meaning_whole.specs.Act.{Here};
ghost use Rattle.f3_meaning_whole.specs.Eval.{ask, asked};
ghost use Rattle.f3_code.specs.declared.instruction.Instruction.TheVariants.{Size, Bound};
ghost use Rattle.f3_data.specs.Values.{span_of, spans_of};
ghost use Rattle.f3_shaping.specs.Results.{value_ran};
ghost use Rattle.f3_cells.specs.Follows.{Does};

use crate::finish::finish;
use f3_cells::stacks::{pop_bounds, pop_datum};
use f3_cells::state::{State, Stop};
use f3_data::value::{Span, Value, number_of};
use f3_meaning_whole::run_error::RunError;
use f3_program::declarations::Base;
use f3_program::expression::Query;
use f3_shaping::bounds::count;
use f3_shaping::operators::converted;

/// A number as one of default kind.
///
/// `Overflow` where it lies past the range (own rule).
fn default_number(number: i128) -> Result<Value, RunError>
    ensures { (place : Place) → value_ran result place ≡ converted Integer (m.Number number) place }
{
    match i64::try_from(number) {
        Ok(number) => converted(Base::Integer, Value::Number(number)),
        Err(_) => Err(RunError::Overflow),
    }
}

/// What SIZE, LBOUND and UBOUND tell of a dimension (ISO/IEC 1539-1:2004, 13.7.112, 13.7.60, 13.7.121).
fn ask(query: Query, span: Span) -> i128
    ensures { result ≡ ask query (span_of span) }
{
    match query {
        Query::Extent => i128::from(span.extent),
        Query::Lower => i128::from(span.lower),
        Query::Upper => i128::from(span.lower) + i128::from(span.extent) - 1,
    }
}

/// What SIZE, LBOUND and UBOUND tell in a dimension from 1 on, of default kind.
///
/// `SubscriptOutOfBounds` outside of the rank, `Overflow` past the range (own rules).
fn asked(query: Query, spans: &[Span], dimension: i64) -> Result<Value, RunError>
    ensures { (here : Here) → value_ran result here.place ≡ asked query (spans_of spans.now) dimension here }
{
    let Some((first, others)) = spans.split_first() else {
        return Err(RunError::SubscriptOutOfBounds);
    };
    if dimension <= 0 {
        return Err(RunError::SubscriptOutOfBounds);
    }
    if dimension <= 1 {
        return default_number(ask(query, *first));
    }
    asked(query, others, dimension - 1)
}

/// How many elements an array has, of default kind.
///
/// `Overflow` where they are more than the range holds (own rule).
fn size_of(spans: &[Span]) -> Result<Value, RunError>
    ensures { (place : Place) → value_ran result place ≡ converted Integer (m.Number (pos (m.count (spans_of spans.now)))) place }
{
    match count(spans) {
        Some(number) => default_number(i128::from(number)),
        None => Err(RunError::Overflow),
    }
}

/// SIZE of an array (13.7.112), of default kind.
///
/// `Overflow` where the elements are more than the range holds (own rule).
#[inline(never)]
pub fn size(state: &mut State) -> Result<(), Stop>
    requires { state.old.pc < 2 ^ 63 }
    ensures { Does Size result state.old state.new }
{
    let Some(spans) = pop_bounds(&mut state.stack) else {
        return Err(Stop::Stuck);
    };
    let given = size_of(&spans);
    drop(spans);
    finish(state, given)
}

/// SIZE, LBOUND or UBOUND in a dimension (13.7.112, 13.7.60, 13.7.121), of default kind.
///
/// `SubscriptOutOfBounds` outside of the rank, `Overflow` past the range (own rules).
#[inline(never)]
pub fn bound(state: &mut State, query: Query) -> Result<(), Stop>
    requires { state.old.pc < 2 ^ 63 }
    ensures { Does (Bound query) result state.old state.new }
{
    let Some(value) = pop_datum(&mut state.stack) else {
        return Err(Stop::Stuck);
    };
    let dimension = number_of(&value);
    drop(value);
    let Some(spans) = pop_bounds(&mut state.stack) else {
        return Err(Stop::Stuck);
    };
    let given = asked(query, &spans, dimension);
    drop(spans);
    finish(state, given)
}
