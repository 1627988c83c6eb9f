//! Taking and giving blocks in a region, with the book of it.

ghost use Rattle.std.specs.Prelude.{◌≡◌, ◌≢◌, ◌+◌, ◌^◌, ◌<◌, ◌≤◌, true, false, None, Some, IfSome, IfNone};
ghost use Rattle.std.specs.List.{list_any};
ghost use Rattle.std.specs.FinMap.{get, remove};
ghost use Rattle.f3_heap_laws.specs.Account.{r};
ghost use Rattle.f3_live_blocks.specs.Blocks.{with_taken};
ghost use Rattle.f3_heap_laws.specs.Gaps.{gaps, places, is_wide, first_wide};
ghost use Rattle.f3_heap_laws.specs.Segments.{UsedAt, FitsAt, NoneFits};
ghost use Rattle.f3_heap_laws.specs.Hints.{classes, width};
ghost use Rattle.f3_heap.specs.Arena.{IsArena, segments_in, live_in};

use crate::arena::Book;
use crate::hints::{class_of, lower_hints, move_hints, width_of};
use crate::segments::{
    SMALL_BLOCK, carve, first_fit, free_left, link, link_next, link_prev, run_around, write_free,
    write_small, write_used,
};
use f3_heap_laws::{fits, size_of_block};
use f3_raw::Region;

/// Takes a small block behind all others, in words that were written before, and tells its place. `None` says nothing of any other.
#[inline(always)]
pub(crate) fn take_last(region: &mut Region, book: &mut Book, words: usize) -> Option<usize>
    requires { IsArena region.old book.old }
    ensures arena { IsArena region.new book.new }
    ensures taken { IfSome result (λ at. live_in region.new book.new ≡ with_taken (live_in region.old book.old) (at + 1) words) }
    ensures fresh { IfSome result (λ at. get (live_in region.old book.old) (at + 1) ≡ None) }
    ensures first { IfSome result (λ at. first_wide words (gaps (places (live_in region.old book.old)) book.old.size) ≡ Some at) }
    ensures small { IfSome result (λ at. at + 1 < 2 ^ 63) }
    ensures some { IfSome result (λ at. list_any (is_wide words) (gaps (places (live_in region.old book.old)) book.old.size) ≡ true) }
    ensures same { IfNone result ((region.new ≡ region.old) × (book.new ≡ book.old)) }
    ensures size { book.new.size ≡ book.old.size }
{
    if words > SMALL_BLOCK {
        return None;
    }
    let taken = size_of_block(words);
    let at = book.end;
    if book.hints[class_of(taken)] == book.size && taken <= region.frontier() - at {
        book.end += taken;
        book.used += taken;
        write_small(region, at, words, taken);
        return Some(at);
    }
    None
}

/// Takes a block of so many words from the first run that has room for it, and tells its place. A small one behind all others, in words
/// that were written before, is taken without a call.
#[inline(always)]
pub(crate) fn take_block(region: &mut Region, book: &mut Book, words: usize) -> Option<usize>
    requires { IsArena region.old book.old }
    ensures arena { IsArena region.new book.new }
    ensures taken { IfSome result (λ at. live_in region.new book.new ≡ with_taken (live_in region.old book.old) (at + 1) words) }
    ensures fresh { IfSome result (λ at. get (live_in region.old book.old) (at + 1) ≡ None) }
    ensures first { IfSome result (λ at. first_wide words (gaps (places (live_in region.old book.old)) book.old.size) ≡ Some at) }
    ensures small { IfSome result (λ at. at + 1 < 2 ^ 63) }
    ensures some { IfSome result (λ at. list_any (is_wide words) (gaps (places (live_in region.old book.old)) book.old.size) ≡ true) }
    ensures none { IfNone result (list_any (is_wide words) (gaps (places (live_in region.old book.old)) book.old.size) ≡ false) }
    ensures same { IfNone result (live_in region.new book.new ≡ live_in region.old book.old) }
    ensures size { book.new.size ≡ book.old.size }
{
    match take_last(region, book, words) {
        Some(at) => Some(at),
        None => take_any(region, book, words),
    }
}

/// The same for any block, wherever it comes to lie.
#[inline(never)]
fn take_any(region: &mut Region, book: &mut Book, words: usize) -> Option<usize>
    requires { IsArena region.old book.old }
    ensures arena { IsArena region.new book.new }
    ensures taken { IfSome result (λ at. live_in region.new book.new ≡ with_taken (live_in region.old book.old) (at + 1) words) }
    ensures fresh { IfSome result (λ at. get (live_in region.old book.old) (at + 1) ≡ None) }
    ensures first { IfSome result (λ at. first_wide words (gaps (places (live_in region.old book.old)) book.old.size) ≡ Some at) }
    ensures small { IfSome result (λ at. at + 1 < 2 ^ 63) }
    ensures some { IfSome result (λ at. list_any (is_wide words) (gaps (places (live_in region.old book.old)) book.old.size) ≡ true) }
    ensures none { IfNone result (list_any (is_wide words) (gaps (places (live_in region.old book.old)) book.old.size) ≡ false) }
    ensures same { IfNone result (live_in region.new book.new ≡ live_in region.old book.old) }
    ensures size { book.new.size ≡ book.old.size }
{
    if !fits(words, book.size) {
        return None;
    }
    let taken = size_of_block(words);
    let at = find_room(region, book, taken);
    if at == book.size {
        if book.size - book.end < taken {
            return None;
        }
        let at = book.end;
        book.end += taken;
        book.used += taken;
        write_used(region, at, words, taken);
        return Some(at);
    }
    take_at(region, book, words, at);
    Some(at)
}

/// Takes a block of so many words from the front of the free block at a place, which is the first that has room for it.
#[inline(never)]
fn take_at(region: &mut Region, book: &mut Book, words: usize, at: usize)
    requires arena { IsArena region.old book.old }
    requires fits { FitsAt (r words) (segments_in region.old book.old) at }
    ensures arena { IsArena region.new book.new }
    ensures taken { live_in region.new book.new ≡ with_taken (live_in region.old book.old) (at + 1) words }
    ensures fresh { get (live_in region.old book.old) (at + 1) ≡ None }
    ensures size { book.new.size ≡ book.old.size }
{
    let taken = size_of_block(words);
    let next = carve(region, &mut book.first, book.size, book.end, at, taken);
    move_hints(&mut book.hints, at, at + 1, next);
    book.used += taken;
    write_used(region, at, words, taken);
}

/// The first free block of `size` words or more, or the heap's size. Where its width has no hint, none is as wide: so a block of the words
/// behind all others is taken without a search.
#[inline(always)]
fn find_room(region: &Region, book: &mut Book, size: usize) -> usize
    requires arena { IsArena region.now book.old }
    requires wide { 4 ≤ size }
    ensures arena { IsArena region.now book.new }
    ensures fits { result ≢ book.new.size → FitsAt size (segments_in region.now book.new) result }
    ensures lacking { result ≡ book.new.size → NoneFits size (segments_in region.now book.new) }
    ensures same { live_in region.now book.new ≡ live_in region.now book.old }
    ensures size { book.new.size ≡ book.old.size }
{
    let class = class_of(size);
    if book.hints[class] == book.size {
        return book.size;
    }
    search(region, book, class, size)
}

/// The same by the list of free blocks, from the hint of a width on that is not above `size`. That moves on.
#[inline(never)]
fn search(region: &Region, book: &mut Book, class: usize, size: usize) -> usize
    requires arena { IsArena region.now book.old }
    requires class { class < classes }
    requires wide { width class ≤ size }
    ensures arena { IsArena region.now book.new }
    ensures fits { result ≢ book.new.size → FitsAt size (segments_in region.now book.new) result }
    ensures lacking { result ≡ book.new.size → NoneFits size (segments_in region.now book.new) }
    ensures same { live_in region.now book.new ≡ live_in region.now book.old }
    ensures size { book.new.size ≡ book.old.size }
{
    let from = first_fit(
        region,
        book.hints[class],
        book.size,
        book.end,
        width_of(class),
    );
    book.hints[class] = from;
    first_fit(region, from, book.size, book.end, size)
}

/// Whether a block of so many words can be taken.
pub(crate) fn has_room(region: &Region, book: &Book, words: usize) -> bool
    requires { IsArena region.now book.now }
    ensures { result ≡ list_any (is_wide words) (gaps (places (live_in region.now book.now)) book.now.size) }
{
    if !fits(words, book.size) {
        return false;
    }
    let size = size_of_block(words);
    let from = book.hints[class_of(size)];
    size <= book.size - book.end || first_fit(region, from, book.size, book.end, size) != book.size
}

/// Gives the live block at a place back, where neither a block nor a free run stands beside it, and tells whether it did: then no free
/// block changes.
#[inline(always)]
pub(crate) fn give_last(region: &Region, book: &mut Book, at: usize) -> bool
    requires arena { IsArena region.now book.old }
    requires block { UsedAt (segments_in region.now book.old) at }
    ensures arena { IsArena region.now book.new }
    ensures given { result ≡ true → live_in region.now book.new ≡ remove (live_in region.now book.old) (at + 1) }
    ensures same { result ≡ false → book.new ≡ book.old }
    ensures size { book.new.size ≡ book.old.size }
{
    let given = size_of_block(link(region, at));
    if at + given == book.end && free_left(region, at) == 0 {
        book.used -= given;
        book.end = at;
        return true;
    }
    false
}

/// Gives the live block at a place back, and joins it to the free words on both its sides. The last one may need no call.
#[inline(always)]
pub(crate) fn give_block(region: &mut Region, book: &mut Book, at: usize)
    requires arena { IsArena region.old book.old }
    requires block { UsedAt (segments_in region.old book.old) at }
    ensures arena { IsArena region.new book.new }
    ensures given { live_in region.new book.new ≡ remove (live_in region.old book.old) (at + 1) }
    ensures size { book.new.size ≡ book.old.size }
{
    if !give_last(region, book, at) {
        join(region, book, at);
    }
}

/// The same where a free block or a live one stands beside it.
#[inline(never)]
fn join(region: &mut Region, book: &mut Book, at: usize)
    requires arena { IsArena region.old book.old }
    requires block { UsedAt (segments_in region.old book.old) at }
    ensures arena { IsArena region.new book.new }
    ensures given { live_in region.new book.new ≡ remove (live_in region.old book.old) (at + 1) }
    ensures size { book.new.size ≡ book.old.size }
{
    let freed = size_of_block(link(region, at));
    book.used -= freed;
    let run = run_around(region, book.first, book.size, book.end, at, freed);
    if run.at + run.size == book.end {
        book.end = run.at;
        link_next(region, &mut book.first, book.size, run.prev, book.size);
        move_hints(&mut book.hints, run.at, book.size, book.size);
    } else {
        write_free(region, run.at, run.size, run.next, run.prev);
        link_next(region, &mut book.first, book.size, run.prev, run.at);
        link_prev(region, book.size, run.next, run.at);
        lower_hints(&mut book.hints, run.at, run.size);
    }
}
