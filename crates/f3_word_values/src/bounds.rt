//! Bounds of arrays.

ghost use Rattle.std.specs.Prelude.{◌≡◌, ◌≤◌, ◌^◌, ℕ, MatchOption, pos};
ghost use Rattle.f3_places.specs.declared.source.Place.{Place};
ghost use Rattle.f3_program.specs.declared.declarations.Base.TheVariants.{Integer};
ghost use Rattle.f3_meaning_whole.specs.Value as m;
ghost use Rattle.f3_meaning_whole.specs.Act.{Here};
ghost use Rattle.f3_meaning_whole.specs.Arithmetic.{converted};
ghost use Rattle.f3_meaning_whole.specs.Eval.{ask, asked};
ghost use Rattle.f3_arithmetic.specs.Scalars.{scalar_ran};
ghost use Rattle.f3_word_cells.specs.Areas.{span_of, spans_of};

use crate::operations::converted;
use f3_desc::descriptor::Dim;
use f3_meaning_whole::run_error::RunError;
use f3_program::declarations::{Base, Constant};
use f3_program::expression::Query;

/// How many elements an array of bounds has (ISO/IEC 1539-1:2004, 6.2.2.2): none where they are 2 to the 64 or more.
fn count(dims: &[Dim]) -> Option<u64>
    ensures { MatchOption result (2 ^ 64 ≤ m.count (spans_of dims.now)) (λ n. n ≡ m.count (spans_of dims.now)) }
{
    let Some((first, others)) = dims.split_first() else {
        return Some(1);
    };
    match count(others) {
        Some(n) => (first.extent as u64).checked_mul(n),
        None if first.extent == 0 => Some(0),
        None => None,
    }
}

/// A number as one of default kind.
///
/// `Overflow` where it lies past the range (own rule).
fn default_number(number: i128) -> Result<Constant, RunError>
    ensures { (place : Place) → scalar_ran result place ≡ converted Integer (m.Number number) place }
{
    match i64::try_from(number) {
        Ok(number) => converted(Base::Integer, Constant::Number(number)),
        Err(_) => Err(RunError::Overflow),
    }
}

/// How many elements an array has, of default kind.
///
/// `Overflow` where they are more than the range holds (own rule).
pub(crate) fn size_of(dims: &[Dim]) -> Result<Constant, RunError>
    ensures { (place : Place) → scalar_ran result place ≡ converted Integer (m.Number (pos (m.count (spans_of dims.now)))) place }
{
    match count(dims) {
        Some(number) => default_number(i128::from(number)),
        None => Err(RunError::Overflow),
    }
}

/// What SIZE, LBOUND and UBOUND tell of a dimension (13.7.112, 13.7.60, 13.7.121).
fn ask(query: Query, dim: Dim) -> i128
    ensures { result ≡ ask query (span_of dim) }
{
    let extent = i128::from(dim.extent as u64);
    match query {
        Query::Extent => extent,
        Query::Lower => i128::from(dim.lower),
        Query::Upper => i128::from(dim.lower) + extent - 1,
    }
}

/// What SIZE, LBOUND and UBOUND tell in a dimension from 1 on, of default kind.
///
/// `SubscriptOutOfBounds` outside of the rank, `Overflow` past the range (own rules).
pub(crate) fn asked(query: Query, dims: &[Dim], dimension: i64) -> Result<Constant, RunError>
    ensures { (here : Here) → scalar_ran result here.place ≡ asked query (spans_of dims.now) dimension here }
{
    let Some((first, others)) = dims.split_first() else {
        return Err(RunError::SubscriptOutOfBounds);
    };
    if dimension <= 0 {
        return Err(RunError::SubscriptOutOfBounds);
    }
    if dimension <= 1 {
        return default_number(ask(query, *first));
    }
    asked(query, others, dimension - 1)
}
