//! Values that meet earlier ones.

ghost use Rattle.std.specs.Prelude.{◌≡◌, List, [], ◌∷◌, map, OnOk, if◌then◌else◌};
ghost use Rattle.std.specs.List.{list_any};
ghost use Rattle.f3_type_rules.specs.Cases.{Span as SpanTree, truths, meets};
ghost use Rattle.f3_typed_parts.specs.Noted.{noted};
ghost use Rattle.f3_cases.specs.Inner.Ranges.{end_of, Rising};
ghost use Rattle.f3_cases.specs.Inner.Seen.{low_end, high_end, Sees};
ghost use Rattle.f3_cases.specs.Inner.Spans.{span_view, held_view, overlaps};

use crate::spans::{Held, Span};
use crate::union::{put, reaches};
use f3_rules::breaks::Break;
use f3_rules::rule::Rule;
use f3_typed_parts::noted::{at_place, unless};
use std::alloc::{AllocError, Global};
use std::collections::BTreeMap;

/// What was seen of the values so far.
#[derive(Drop)]
struct Seen {
    ranges: BTreeMap<i64, i64>,
    truth: bool,
    falsehood: bool,
}

fn low_end(low: Option<i64>) -> i64
    ensures { result ≡ low_end low }
{
    match low {
        Some(low) => low,
        None => i64::MIN,
    }
}

fn high_end(high: Option<i64>) -> i64
    ensures { result ≡ high_end high }
{
    match high {
        Some(high) => high,
        None => i64::MAX,
    }
}

fn flag(truth: bool, when_true: bool, when_false: bool) -> bool
    ensures { result ≡ (if truth then when_true else when_false) }
{
    if truth { when_true } else { when_false }
}

/// Whether a value meets one that was seen.
fn meets(seen: &Seen, span: Span) -> bool
    requires { Rising (end_of seen.now.ranges) }
    ensures { (spans : List SpanTree) → Sees spans (end_of seen.now.ranges) seen.now.truth seen.now.falsehood → result ≡ list_any (meets (span_view span)) spans }
{
    match span {
        Span::Nothing => false,
        Span::Numbers(low, high) => {
            let low = low_end(low);
            let high = high_end(high);
            reaches(&seen.ranges, low, high)
        }
        Span::Truth(truth) => flag(truth, seen.truth, seen.falsehood),
    }
}

fn see_truth(seen: &mut Seen, truth: bool)
    ensures { (spans : List SpanTree) → Sees spans (end_of seen.old.ranges) seen.old.truth seen.old.falsehood → Sees (truths truth ∷ spans) (end_of seen.new.ranges) seen.new.truth seen.new.falsehood }
{
    seen.truth = seen.truth || truth;
    seen.falsehood = seen.falsehood || !truth;
}

/// Sees a value.
fn see(seen: &mut Seen, span: Span) -> Result<(), AllocError>
    requires { Rising (end_of seen.old.ranges) }
    ensures { OnOk result ((spans : List SpanTree) → Sees spans (end_of seen.old.ranges) seen.old.truth seen.old.falsehood → Sees (span_view span ∷ spans) (end_of seen.new.ranges) seen.new.truth seen.new.falsehood) }
{
    match span {
        Span::Nothing => Ok(()),
        Span::Numbers(low, high) => {
            let low = low_end(low);
            let high = high_end(high);
            put(&mut seen.ranges, low, high)?;
            Ok(())
        }
        Span::Truth(truth) => {
            see_truth(seen, truth);
            Ok(())
        }
    }
}

/// Notes the first of the values that meet earlier ones (8.1.3), in time n log n.
pub fn overlaps(alloc: Global, first: &mut Option<Break>, all: &[Held]) -> Result<(), AllocError>
    ensures { OnOk result (first.new ≡ noted first.old (overlaps [] (map held_view all.now))) }
{
    let mut seen = Seen {
        ranges: BTreeMap::new(alloc),
        truth: false,
        falsehood: false,
    };
    for held in all {
        let apart = !meets(&seen, held.span);
        unless(first, apart, at_place(6, Rule::T11, held.place));
        see(&mut seen, held.span)?;
    }
    Ok(())
}
