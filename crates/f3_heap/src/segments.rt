//! Blocks in a region, one after another: their words, and the list of the free ones.
//!
//! Places are counted in words from 0. The size of the heap stands for no place.
//!
//! ```text
//! a live block of n words:   | n  | pins | the n words ..      zeros | n  |
//! a free block of s words:   | -s | next | previous | ..             | -s |
//! the region:                | block | block | .. | block |  the last run  |
//!                            0                           end            size
//! ```

#![tactic(auto)]

ghost use Rattle.std.specs.Prelude.{◌≡◌, ◌≢◌, ◌+◌, ◌-◌, ◌*◌, ◌%◌, ◌^◌, ◌<◌, ◌≤◌, false, ℕ, pos, length, replicate, slice_index_or, slice_set, cond, nat_eq};
ghost use Rattle.std.specs.Int.{cast_signed, cast_unsigned};
ghost use mir.Syntax.{w64};
ghost use Rattle.f3_raw.specs.Region.{region_words, region_size};
ghost use Rattle.f3_raw.specs.Words.{written};
ghost use Rattle.f3_heap_laws.specs.Account.{r};
ghost use Rattle.f3_heap_laws.specs.Hints.{HintFrom, CutsTo};
ghost use Rattle.f3_heap_laws.specs.Segments.{Lays, segments, free_size_of, with_next, with_prev, free_words, used_words, FitsAt, NoneFits, freed, UsedAt, last_free, AreApart, Around};

use f3_heap_laws::size_of_block;
use f3_raw::Region;

/// The most words of a small block.
pub(crate) const SMALL_BLOCK: usize = 29;

/// The size that a free block's first or last word tells, or 0 for a live block's.
#[inline]
pub(crate) fn free_size(region: &Region, at: usize) -> usize
    requires { at < length (region_words region.now) }
    ensures { result ≡ free_size_of (slice_index_or (region_words region.now) at (pos 0)) }
{
    let word = region.get(at);
    if word < 0 {
        word.unsigned_abs() as usize
    } else {
        0
    }
}

/// Sets the next link of the free block at `prev`, or the list's first place where there is none.
pub(crate) fn link_next(
    region: &mut Region,
    first: &mut usize,
    none: usize,
    prev: usize,
    next: usize,
)
    requires within { prev ≢ none → prev + 1 < length (region_words region.old) }
    requires small { next < 2 ^ 63 }
    ensures words { region_words region.new ≡ with_next (region_words region.old) none prev next }
    ensures first { first.new ≡ cond (nat_eq prev none) next first.old }
    ensures size { region_size region.new ≡ region_size region.old }
{
    if prev == none {
        *first = next;
    } else {
        region.put(prev + 1, next as i64);
    }
}

/// Sets the previous link of the free block at `next`, if there is one.
pub(crate) fn link_prev(region: &mut Region, none: usize, next: usize, prev: usize)
    requires within { next ≢ none → next + 2 < length (region_words region.old) }
    requires small { prev < 2 ^ 63 }
    ensures words { region_words region.new ≡ with_prev (region_words region.old) none next prev }
    ensures size { region_size region.new ≡ region_size region.old }
{
    if next != none {
        region.put(next + 2, prev as i64);
    }
}

/// Writes 0 to `size` words where all of them were written before.
#[inline]
fn clear_below(region: &mut Region, at: usize, size: usize)
    requires { at + size ≤ length (region_words region.old) }
    ensures words { region_words region.new ≡ written (region_words region.old) at (replicate size (pos 0)) }
    ensures size { region_size region.new ≡ region_size region.old }
{
    let (_, run) = region.pair(0, 0, at, size);
    run.fill(0);
}

/// The same where some were not.
#[inline(never)]
fn clear_above(region: &mut Region, at: usize, size: usize)
    requires reached { at ≤ length (region_words region.old) }
    requires inside { at + size ≤ region_size region.old }
    ensures words { region_words region.new ≡ written (region_words region.old) at (replicate size (pos 0)) }
    ensures size { region_size region.new ≡ region_size region.old }
{
    region.clear(at, size);
}

/// Writes 0 to `size` words, up to the region's frontier or beyond it.
#[inline]
fn clear(region: &mut Region, at: usize, size: usize)
    requires reached { at ≤ length (region_words region.old) }
    requires inside { at + size ≤ region_size region.old }
    ensures words { region_words region.new ≡ written (region_words region.old) at (replicate size (pos 0)) }
    ensures size { region_size region.new ≡ region_size region.old }
{
    if size <= region.frontier() - at {
        clear_below(region, at, size);
    } else {
        clear_above(region, at, size);
    }
}

/// Writes a live block of so many zeros, with no pins, over `size` words.
#[inline]
pub(crate) fn write_used(region: &mut Region, at: usize, words: usize, size: usize)
    requires reached { at ≤ length (region_words region.old) }
    requires inside { at + size ≤ region_size region.old }
    requires sized { size ≡ r words }
    requires small { words < 2 ^ 63 }
    ensures words { region_words region.new ≡ written (region_words region.old) at (used_words (replicate words (pos 0)) 0) }
    ensures size { region_size region.new ≡ region_size region.old }
{
    clear(region, at, size);
    region.put(at, words as i64);
    region.put(at + size - 1, words as i64);
}

/// Writes 0 to `size` words by the first `part` ones and the last, which meet or overlap.
#[inline(always)]
fn clear_ends(region: &mut Region, at: usize, size: usize, part: usize)
    requires inside { at + size ≤ length (region_words region.old) }
    requires meet { (part ≤ size) × (size ≤ part + part) }
    ensures words { region_words region.new ≡ written (region_words region.old) at (replicate size (pos 0)) }
    ensures size { region_size region.new ≡ region_size region.old }
{
    clear_below(region, at, part);
    clear_below(region, at + size - part, part);
}

/// Writes 0 to the words of a small block. Runs of a length that is known are written in line.
#[inline(always)]
fn clear_small(region: &mut Region, at: usize, size: usize)
    requires inside { at + size ≤ length (region_words region.old) }
    requires small { (4 ≤ size) × (size ≤ 32) }
    ensures words { region_words region.new ≡ written (region_words region.old) at (replicate size (pos 0)) }
    ensures size { region_size region.new ≡ region_size region.old }
{
    if size <= 8 {
        clear_ends(region, at, size, 4);
    } else if size <= 16 {
        clear_ends(region, at, size, 8);
    } else {
        clear_ends(region, at, size, 16);
    }
}

/// The same as `write_used` for a small block, where all its words were written before.
#[inline(always)]
pub(crate) fn write_small(region: &mut Region, at: usize, words: usize, size: usize)
    requires inside { at + size ≤ length (region_words region.old) }
    requires sized { size ≡ r words }
    requires small { words ≤ 29 }
    ensures words { region_words region.new ≡ written (region_words region.old) at (used_words (replicate words (pos 0)) 0) }
    ensures size { region_size region.new ≡ region_size region.old }
{
    clear_small(region, at, size);
    let length = words as i64;
    region.put(at, length);
    region.put(at + size - 1, length);
}

/// Writes a free block of `size` words, with its links.
pub(crate) fn write_free(region: &mut Region, at: usize, size: usize, next: usize, prev: usize)
    requires within { at + size ≤ length (region_words region.old) }
    requires sized { (4 ≤ size) × (size < 2 ^ 63) }
    requires small { (next < 2 ^ 63) × (prev < 2 ^ 63) }
    ensures words { region_words region.new ≡ freed (region_words region.old) at size next prev }
    ensures size { region_size region.new ≡ region_size region.old }
{
    let header = -(size as i64);
    region.put(at, header);
    region.put(at + 1, next as i64);
    region.put(at + 2, prev as i64);
    region.put(at + size - 1, header);
}

/// The place in a link.
#[inline]
pub(crate) fn link(region: &Region, at: usize) -> usize
    requires { at < length (region_words region.now) }
    ensures { result ≡ cast_unsigned w64 (slice_index_or (region_words region.now) at (pos 0)) }
{
    region.get(at).cast_unsigned() as usize
}

/// The first free block of `size` words or more, or `none`. The search begins at `from`.
pub(crate) fn first_fit(region: &Region, from: usize, none: usize, end: usize, size: usize) -> usize
    requires lays { (first : ℕ) × Lays none (segments (region_words region.now) end) (region_words region.now) first end }
    requires small { end ≤ none }
    requires begins { HintFrom none size from 0 (segments (region_words region.now) end) }
    ensures fits { result ≢ none → FitsAt size (segments (region_words region.now) end) result }
    ensures lacking { result ≡ none → NoneFits size (segments (region_words region.now) end) }
{
    let mut at = from;
    while at != none {
        if free_size(region, at) >= size {
            return at;
        }
        at = link(region, at + 1);
    }
    none
}

/// Cuts `size` words from the front of the free block at `at`, and leaves the rest in the list.
/// The next free block is told.
pub(crate) fn carve(
    region: &mut Region,
    first: &mut usize,
    none: usize,
    end: usize,
    at: usize,
    size: usize,
) -> usize
    requires lays { Lays none (segments (region_words region.old) end) (region_words region.old) first.old end }
    requires small { (end ≤ none) × (none < 2 ^ 60) }
    requires fits { FitsAt size (segments (region_words region.old) end) at }
    requires sized { (4 ≤ size) × (size % 4 ≡ 0) }
    ensures cuts { CutsTo none size (segments (region_words region.old) end) at result first.new end (region_words region.new) }
    ensures length { length (region_words region.new) ≡ length (region_words region.old) }
    ensures size { region_size region.new ≡ region_size region.old }
{
    let run = free_size(region, at);
    let next = link(region, at + 1);
    let prev = link(region, at + 2);
    if run > size {
        let rest = at + size;
        write_free(region, rest, run - size, next, prev);
        link_next(region, first, none, prev, rest);
        link_prev(region, none, next, rest);
        rest
    } else {
        link_next(region, first, none, prev, next);
        link_prev(region, none, next, prev);
        next
    }
}

/// The size of the free block that ends at `at`, or 0.
pub(crate) fn free_left(region: &Region, at: usize) -> usize
    requires { at ≤ length (region_words region.now) }
    ensures start { at ≡ 0 → result ≡ 0 }
    ensures tag { 0 < at → result ≡ free_size_of (slice_index_or (region_words region.now) (at - 1) (pos 0)) }
{
    if at > 0 { free_size(region, at - 1) } else { 0 }
}

/// The size of the free block that begins at `at`, or 0.
fn free_right(region: &Region, at: usize, end: usize) -> usize
    requires { end ≤ length (region_words region.now) }
    ensures head { at < end → result ≡ free_size_of (slice_index_or (region_words region.now) at (pos 0)) }
    ensures end { end ≤ at → result ≡ 0 }
{
    if at < end { free_size(region, at) } else { 0 }
}

/// The last free block before the place `at`, or `none`. It is looked for along the list and, at
/// the same time, block by block back from `at`: the shorter way ends the search.
fn free_before(region: &Region, first: usize, none: usize, end: usize, at: usize) -> usize
    requires lays { Lays none (segments (region_words region.now) end) (region_words region.now) first end }
    requires small { end ≤ none }
    requires block { UsedAt (segments (region_words region.now) end) at }
    ensures { result ≡ last_free none 0 (segments (region_words region.now) at) }
{
    let mut prev = none;
    let mut next = first;
    let mut here = at;
    while next < at {
        let free = free_size(region, here - 1);
        if free > 0 {
            return here - free;
        }
        here -= size_of_block(link(region, here - 1));
        prev = next;
        next = link(region, next + 1);
    }
    prev
}

/// The free block before a run, by the links of the free blocks that it joins.
fn run_prev(
    region: &Region,
    first: usize,
    none: usize,
    end: usize,
    at: usize,
    behind: usize,
    left: usize,
    right: usize,
) -> usize
    requires lays { Lays none (segments (region_words region.now) end) (region_words region.now) first end }
    requires small { end ≤ none }
    requires block { UsedAt (segments (region_words region.now) end) at }
    requires left_in { 0 < left → (left ≤ at) × (at - left + 2 < length (region_words region.now)) }
    requires right_in { 0 < right → behind + 2 < length (region_words region.now) }
    ensures joins_left { 0 < left → result ≡ cast_unsigned w64 (slice_index_or (region_words region.now) (at - left + 2) (pos 0)) }
    ensures joins_right { left ≡ 0 → 0 < right → result ≡ cast_unsigned w64 (slice_index_or (region_words region.now) (behind + 2) (pos 0)) }
    ensures alone { left ≡ 0 → right ≡ 0 → result ≡ last_free none 0 (segments (region_words region.now) at) }
{
    if left > 0 {
        link(region, at - left + 2)
    } else if right > 0 {
        link(region, behind + 2)
    } else {
        free_before(region, first, none, end, at)
    }
}

/// The free block behind a run, by the links of the free blocks that it joins or of the one before.
fn run_next(
    region: &Region,
    first: usize,
    none: usize,
    at: usize,
    behind: usize,
    left: usize,
    right: usize,
    prev: usize,
) -> usize
    requires left_in { 0 < left → (left ≤ at) × (at - left + 1 < length (region_words region.now)) }
    requires right_in { 0 < right → behind + 1 < length (region_words region.now) }
    requires prev_in { left ≡ 0 → right ≡ 0 → prev ≢ none → prev + 1 < length (region_words region.now) }
    ensures joins_right { 0 < right → result ≡ cast_unsigned w64 (slice_index_or (region_words region.now) (behind + 1) (pos 0)) }
    ensures joins_left { right ≡ 0 → 0 < left → result ≡ cast_unsigned w64 (slice_index_or (region_words region.now) (at - left + 1) (pos 0)) }
    ensures starts { right ≡ 0 → left ≡ 0 → prev ≡ none → result ≡ first }
    ensures steps { right ≡ 0 → left ≡ 0 → prev ≢ none → result ≡ cast_unsigned w64 (slice_index_or (region_words region.now) (prev + 1) (pos 0)) }
{
    if right > 0 {
        link(region, behind + 1)
    } else if left > 0 {
        link(region, at - left + 1)
    } else if prev == none {
        first
    } else {
        link(region, prev + 1)
    }
}

/// A run of words that is to be one free block, and the free blocks before and behind it.
#[derive(Drop)]
pub(crate) struct Run {
    pub(crate) at: usize,
    pub(crate) size: usize,
    pub(crate) prev: usize,
    pub(crate) next: usize,
}

/// The live block at `at` with the free blocks on both its sides.
pub(crate) fn run_around(
    region: &Region,
    first: usize,
    none: usize,
    end: usize,
    at: usize,
    size: usize,
) -> Run
    requires lays { Lays none (segments (region_words region.now) end) (region_words region.now) first end }
    requires small { (end ≤ none) × (none < 2 ^ 60) }
    requires apart { AreApart false (segments (region_words region.now) end) }
    requires block { UsedAt (segments (region_words region.now) end) at }
    requires sized { size ≡ r (cast_unsigned w64 (slice_index_or (region_words region.now) at (pos 0))) }
    ensures { Around none (segments (region_words region.now) end) at result.at result.size result.prev result.next }
{
    let behind = at + size;
    let left = free_left(region, at);
    let right = free_right(region, behind, end);
    let prev = run_prev(region, first, none, end, at, behind, left, right);
    let next = run_next(region, first, none, at, behind, left, right, prev);
    Run {
        at: at - left,
        size: left + size + right,
        prev,
        next,
    }
}

/// The pin count in a word.
#[inline]
pub(crate) fn pin_count(region: &Region, at: usize) -> u64
    requires { at < length (region_words region.now) }
    ensures { result ≡ cast_unsigned w64 (slice_index_or (region_words region.now) at (pos 0)) }
{
    region.get(at).cast_unsigned()
}

/// Puts a pin count into a word.
#[inline]
pub(crate) fn put_pin_count(region: &mut Region, at: usize, pins: u64)
    requires { at < length (region_words region.old) }
    ensures words { region_words region.new ≡ slice_set (region_words region.old) at (cast_signed w64 pins) }
    ensures size { region_size region.new ≡ region_size region.old }
{
    let word = pins.cast_signed();
    region.put(at, word);
}
