//! Elements of an array take those of a value, each its own.

ghost use Rattle.std.specs.Prelude.{◌≡◌, ◌≢◌, ◌+◌, ◌*◌, ◌/◌, ◌<◌, ◌≤◌, ◌^◌, ◌+ℤ◌, ◌*ℤ◌, pos, true, length, take, MatchOption};
ghost use Rattle.f3_live_blocks.specs.Blocks.{IsLive, words_of, with_words};
ghost use Rattle.f3_desc.specs.Inner.Congruent.{IsCongruent};
ghost use Rattle.f3_desc.specs.Descriptor.{places, progression};
ghost use Rattle.f3_desc.specs.Laws.{size_of};
ghost use Rattle.f3_room_arrays.specs.Inner.Numbers.{away};
ghost use Rattle.f3_room_arrays.specs.Words.{copied};
ghost use Rattle.f3_room_arrays.specs.Changes.{LieWithin};
ghost use Rattle.f3_word_copies.specs.Spread.{fewer_of};

use arrayvec::ArrayVec;
use f3_desc::descriptor::{Descriptor, Dim};
use f3_heap::{BlockId, Blocks};
use f3_room_arrays::{fill, scatter};

/// How many elements an array has, where that is below 2 ^ 64.
fn size(dims: &[Dim]) -> Option<usize>
    ensures { MatchOption result (2 ^ 64 ≤ size_of dims.now) (λ n. n ≡ size_of dims.now) }
{
    let Some((first, others)) = dims.split_first() else {
        return Some(1);
    };
    if first.extent == 0 {
        return Some(0);
    }
    match size(others) {
        Some(rest) => first.extent.checked_mul(rest),
        None => None,
    }
}

/// The smaller of a number and that of the elements of an array.
fn fewer(dims: &[Dim], count: usize) -> usize
    ensures { result ≡ fewer_of (size_of dims.now) count }
{
    match size(dims) {
        Some(size) if size < count => size,
        _ => count,
    }
}

/// Whether an array has just so many elements.
fn has_size(dims: &[Dim], count: usize) -> bool
    ensures { result ≡ true → size_of dims.now ≡ count }
{
    match size(dims) {
        Some(size) => size == count,
        None => false,
    }
}

/// The place so many strides behind another, up to a multiple of 2 ^ 64.
fn behind(at: usize, count: usize, stride: i64) -> usize
    ensures { IsCongruent (pos result) (pos at +ℤ (pos count *ℤ stride)) }
{
    at.wrapping_add(count.wrapping_mul(stride.cast_unsigned() as usize))
}

/// The place of the element of a number, in array element order, up to a multiple of 2 ^ 64.
fn place_of(dims: &[Dim], at: usize, number: usize) -> usize
    requires { number < size_of dims.now }
    ensures { IsCongruent (pos result) (pos at +ℤ away dims.now number) }
{
    let Some((first, others)) = dims.split_first() else {
        return at;
    };
    let next = behind(at, number % first.extent, first.stride);
    place_of(others, next, number / first.extent)
}

/// The first so many elements take as many of a block, one after another.
fn take_each<B: Blocks>(
    heap: &mut B,
    from: BlockId,
    elements: &Descriptor,
    words: usize,
    count: usize,
)
    requires within { LieWithin (B.blocks heap.old) elements.now words }
    requires live { IsLive (B.blocks heap.old) from }
    requires apart { from ≢ elements.now.block }
    requires few { count ≤ size_of elements.now.dims.items }
    requires room { count * words ≤ length (words_of (B.blocks heap.old) from) }
    ensures taken { B.blocks heap.new ≡ with_words (B.blocks heap.old) elements.now.block
        (copied words (words_of (B.blocks heap.old) elements.now.block) (words_of (B.blocks heap.old) from)
        (take count (places elements.now)) (progression (pos 0) (pos words) count)) }
    ensures kept { B.kept heap.new ≡ B.kept heap.old }
{
    prove!(heap.length(from) <= usize::MAX);
    prove!(heap.length(elements.block) <= usize::MAX);
    for number in 0..count {
        let place = Descriptor {
            block: elements.block,
            offset: place_of(&elements.dims, elements.offset, number),
            dims: ArrayVec::new(),
        };
        fill(heap, from, number * words, &place, words);
    }
}

/// Elements of so many words take those of a block, one after another, as many as both have (ISO/IEC 1539-1:2004, 7.4.1.3).
pub(crate) fn take_elements<B: Blocks>(
    heap: &mut B,
    from: BlockId,
    elements: &Descriptor,
    words: usize,
)
    requires some { 0 < words }
    requires within { LieWithin (B.blocks heap.old) elements.now words }
    requires live { IsLive (B.blocks heap.old) from }
    requires apart { from ≢ elements.now.block }
    ensures taken { let count = fewer_of (size_of elements.now.dims.items) (length (words_of (B.blocks heap.old) from) / words) in
        B.blocks heap.new ≡ with_words (B.blocks heap.old) elements.now.block
        (copied words (words_of (B.blocks heap.old) elements.now.block) (words_of (B.blocks heap.old) from)
        (take count (places elements.now)) (progression (pos 0) (pos words) count)) }
    ensures kept { B.kept heap.new ≡ B.kept heap.old }
{
    let count = fewer(&elements.dims, heap.length(from) / words);
    if has_size(&elements.dims, count) && words < 1 << 63 {
        scatter(heap, from, 0, elements, words);
    } else {
        take_each(heap, from, elements, words, count);
    }
}
