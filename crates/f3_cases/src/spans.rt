//! What the values of CASE statements hold.

ghost use Rattle.std.specs.Prelude.{◌≡◌};
ghost use Rattle.f3_type_rules.specs.Cases.{one_span, range_span};
ghost use Rattle.f3_cases.specs.Inner.Spans.{span_view, from_span, up_to_span};

use f3_kinds::types::Scalar;
use f3_places::source::Place;

/// What a value or a range of values holds.
#[derive(Clone, Copy)]
pub enum Span {
    Nothing,
    /// The whole numbers from the first to the last; without an end for ever.
    Numbers(Option<i64>, Option<i64>),
    Truth(bool),
}

/// What a value of a CASE statement holds, and the place of its first token.
#[derive(Clone, Copy)]
pub struct Held {
    pub span: Span,
    pub place: Place,
}

pub fn one_span(value: Option<Scalar>) -> Span
    ensures { span_view result ≡ one_span value }
{
    match value {
        None => Span::Nothing,
        Some(Scalar::Number(_, z)) => Span::Numbers(Some(z), Some(z)),
        Some(Scalar::Truth(truth)) => Span::Truth(truth),
    }
}

pub fn from_span(value: Option<Scalar>) -> Span
    ensures { span_view result ≡ from_span value }
{
    match value {
        Some(Scalar::Number(_, z)) => Span::Numbers(Some(z), None),
        Some(Scalar::Truth(_)) => Span::Nothing,
        None => Span::Nothing,
    }
}

pub fn up_to_span(value: Option<Scalar>) -> Span
    ensures { span_view result ≡ up_to_span value }
{
    match value {
        Some(Scalar::Number(_, z)) => Span::Numbers(None, Some(z)),
        Some(Scalar::Truth(_)) => Span::Nothing,
        None => Span::Nothing,
    }
}

/// An empty range holds nothing.
pub fn range_span(low: Option<Scalar>, high: Option<Scalar>) -> Span
    ensures { span_view result ≡ range_span low high }
{
    match (low, high) {
        (Some(Scalar::Number(_, z)), Some(Scalar::Number(_, y))) => {
            if y < z {
                Span::Nothing
            } else {
                Span::Numbers(Some(z), Some(y))
            }
        }
        (_, _) => Span::Nothing,
    }
}
