//! Ranges of whole numbers, and whether one meets any of them.
//!
//! A map from the first number of each range to its last. A range within another is left out, so where one begins later it
//! ends later, and of those that begin at a number or below the last one ends last.

ghost use Rattle.std.specs.Prelude.{◌≡◌, ◌↔◌, ℤ, ◌≤ℤ◌, IsTrue, None, MatchOption, OnOk};
ghost use Rattle.f3_cases.specs.Inner.Ranges.{end_of, Rising, IsLast, IsFirst, Reaches, IsCut, IsGrown};

use std::alloc::AllocError;
use std::collections::BTreeMap;

/// The last range that begins at a number or below.
fn last_up_to(ranges: &BTreeMap<i64, i64>, end: i64) -> Option<(i64, i64)>
    ensures { MatchOption result ((l : ℤ) → l ≤ℤ end → end_of ranges.now l ≡ None) (λ p. IsLast (end_of ranges.now) end p) }
{
    let mut below = ranges.range(..=end);
    match below.next_back() {
        Some((first, last)) => Some((*first, *last)),
        None => None,
    }
}

/// The first range that begins at a number or above.
fn first_from(ranges: &BTreeMap<i64, i64>, start: i64) -> Option<(i64, i64)>
    ensures { MatchOption result ((l : ℤ) → start ≤ℤ l → end_of ranges.now l ≡ None) (λ p. IsFirst (end_of ranges.now) start p) }
{
    let mut above = ranges.range(start..);
    match above.next() {
        Some((first, last)) => Some((*first, *last)),
        None => None,
    }
}

/// Whether some range begins at a number or below and ends at another or above.
pub fn reaches(ranges: &BTreeMap<i64, i64>, low: i64, high: i64) -> bool
    requires { Rising (end_of ranges.now) }
    ensures { IsTrue result ↔ Reaches (end_of ranges.now) low high }
{
    match last_up_to(ranges, high) {
        Some((_, last)) => low <= last,
        None => false,
    }
}

/// Takes out the ranges that lie within one.
fn cut(ranges: &mut BTreeMap<i64, i64>, low: i64, high: i64)
    requires { Rising (end_of ranges.old) }
    ensures { IsCut (end_of ranges.old) (end_of ranges.new) low high }
{
    while let Some((first, last)) = first_from(ranges, low) {
        if high < last {
            return;
        }
        let _ = ranges.remove(&first);
    }
}

/// Puts a range in.
pub fn put(ranges: &mut BTreeMap<i64, i64>, low: i64, high: i64) -> Result<(), AllocError>
    requires { Rising (end_of ranges.old) }
    ensures { OnOk result (IsGrown (end_of ranges.old) (end_of ranges.new) low high) }
{
    if reaches(ranges, high, low) {
        return Ok(());
    }
    cut(ranges, low, high);
    let _ = ranges.insert(low, high)?;
    Ok(())
}
