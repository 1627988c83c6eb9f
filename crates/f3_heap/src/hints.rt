//! Where a search along the list of free blocks may begin.
//!
//! For each width the heap keeps a free block's place, or its size: no free block before it is as
//! wide. So a search for a block of this width, or of more words, may begin there.

#![tactic(auto)]

ghost use Rattle.std.specs.Prelude.{◌≡◌, ◌<◌, ◌≤◌, ◌+◌, ◌^◌, ℕ, length, slice_index_or};
ghost use Rattle.f3_heap_laws.specs.Hints.{classes, width, moved, lowered};

/// How many widths there are: 4 words, 8, 12 and so on.
pub(crate) const CLASSES: usize = 32;

/// The number, from 0, of the last width that is not above `size`.
pub(crate) fn class_of(size: usize) -> usize
    requires { 4 ≤ size }
    ensures within { result < classes }
    ensures wide { width result ≤ size }
{
    (size / 4).min(CLASSES) - 1
}

/// The words of a width.
pub(crate) fn width_of(class: usize) -> usize
    requires { class < classes }
    ensures { result ≡ width class }
{
    4 * (class + 1)
}

/// Moves the hints from the place `from` on and below `until` to the place `to`.
pub(crate) fn move_hints(hints: &mut [usize; CLASSES], from: usize, until: usize, to: usize)
    ensures length { length hints.new ≡ classes }
    ensures moved { (i : ℕ) → i < classes → slice_index_or hints.new i 0 ≡ moved from until to (slice_index_or hints.old i 0) }
{
    for i in 0..CLASSES {
        if from <= hints[i] && hints[i] < until {
            hints[i] = to;
        }
    }
}

/// The hint for `width` words, where `size` words from `start` on have become one free block.
fn lowered_hint(hint: usize, width: usize, start: usize, size: usize) -> usize
    requires { start + size < 2 ^ 64 }
    ensures { result ≡ lowered width start size hint }
{
    if start <= hint && (width <= size || hint < start + size) {
        start
    } else {
        hint
    }
}

/// Lowers the hints to the place `start`, where `size` words have become one free block: those
/// behind it of widths up to `size`, and those that lie in it.
pub(crate) fn lower_hints(hints: &mut [usize; CLASSES], start: usize, size: usize)
    requires { start + size < 2 ^ 64 }
    ensures length { length hints.new ≡ classes }
    ensures lowered { (i : ℕ) → i < classes → slice_index_or hints.new i 0 ≡ lowered (width i) start size (slice_index_or hints.old i 0) }
{
    for i in 0..CLASSES {
        hints[i] = lowered_hint(hints[i], width_of(i), start, size);
    }
}
