//! Objects in a row whose number is known at run time.

ghost use Rattle.std.specs.Prelude.{◌≡◌, ◌↔◌, ◌<◌, ◌+◌, ℕ, [], None, IsOk, OnOk, OnErr, is_ok};
ghost use Rattle.std.specs.FinMap.{get};
ghost use Rattle.f3_live_blocks.specs.Blocks.{pins_of};
ghost use Rattle.f3_heap_laws.specs.Account.{used_by};
ghost use Rattle.f3_heap_laws.specs.Answers.{sizes, Took, Tried};
ghost use Rattle.f3_desc.specs.Shape.{Times};
ghost use Rattle.f3_desc.specs.Layout.{shape_in, piece_count};
ghost use Rattle.f3_objects.specs.Tree.{Tree, times, footprint};
ghost use Rattle.f3_objects.specs.Holds.{Holds, Frees, NonePinned, IsContents, left};
ghost use Rattle.f3_objects.specs.Copies.{Ready, Refills, Copies, Empties, Refuses, faults};

use crate::copy::{TreeFault, copy_inner, copy_repeats};
use crate::free::{free_inner, free_repeats};
use f3_desc::Layout;
use f3_heap::{BlockId, Blocks, Pinned};

/// Copies so many elements, which stand one after another, with all blocks beneath them, to a place
/// where nothing is allocated. An element is the piece `of` of the layout. All else is as for
/// `copy_tree`.
///
/// # Errors
///
/// As for `copy_tree`.
pub fn copy_elements<B: Blocks>(
    heap: &mut B,
    from: BlockId,
    from_at: usize,
    to: BlockId,
    to_at: usize,
    layout: &Layout,
    count: usize,
    of: usize,
) -> Result<(), TreeFault>
    requires numbered { of < piece_count layout.now }
    requires ready { (t : Tree) × (u : Tree) × Ready (B.blocks heap.old) from from_at to to_at (Times count (shape_in layout.now of)) t u }
    ensures copied { let s = Times count (shape_in layout.now of) in
        OnOk result ((t u : Tree) → Ready (B.blocks heap.old) from from_at to to_at s t u
        → Copies (B.blocks heap.old) (B.blocks heap.new) to to_at s t u []
        (Took B.allows B.spent (B.kept heap.old) (B.kept heap.new) (B.blocks heap.old) (B.blocks heap.new))) }
    ensures emptied { let s = Times count (shape_in layout.now of) in
        OnErr result ((t u : Tree) → Ready (B.blocks heap.old) from from_at to to_at s t u
        → Empties (B.blocks heap.old) (B.blocks heap.new) to to_at s) }
    ensures refused { let s = Times count (shape_in layout.now of) in
        OnErr result ((t u : Tree) → Ready (B.blocks heap.old) from from_at to to_at s t u
        → Refuses t (faults result) (Tried B.allows B.spent (B.kept heap.old) (B.kept heap.new) (sizes (B.blocks heap.old)))) }
    ensures used { let s = Times count (shape_in layout.now of) in
        OnOk result ((t u : Tree) → Ready (B.blocks heap.old) from from_at to to_at s t u
        → used_by (B.blocks heap.new) ≡ used_by (B.blocks heap.old) + footprint t) }
    ensures used_before { OnErr result (used_by (B.blocks heap.new) ≡ used_by (B.blocks heap.old)) }
    ensures source { let s = Times count (shape_in layout.now of) in
        (t u : Tree) → Ready (B.blocks heap.old) from from_at to to_at s t u → Holds (B.blocks heap.new) from from_at s t }
{
    prove!(from_at <= heap.length(from));
    prove!(to_at <= heap.length(to));
    let copied = copy_repeats(heap, from, from_at, to, to_at, layout, count, of);
    if copied.is_err() {
        let given = free_repeats(heap, to, to_at, layout, count, of).is_ok();
        prove!(given);
    }
    copied
}

/// Copies the elements that one block holds, with all blocks beneath them, into another block of its
/// length, in which nothing is allocated. An element is the piece `of` of the layout. All else is as
/// for `copy_tree`.
///
/// # Errors
///
/// As for `copy_tree`.
pub fn copy_contents<B: Blocks>(
    heap: &mut B,
    from: BlockId,
    to: BlockId,
    layout: &Layout,
    of: usize,
) -> Result<(), TreeFault>
    requires numbered { of < piece_count layout.now }
    requires ready { (n : ℕ) × (t : Tree) × (u : Tree) × Refills (B.blocks heap.old) from to (shape_in layout.now of) n t u }
    ensures copied { let s = shape_in layout.now of in
        OnOk result ((n : ℕ) (t u : Tree) → Refills (B.blocks heap.old) from to s n t u
        → Copies (B.blocks heap.old) (B.blocks heap.new) to 0 (Times n s) t u []
        (Took B.allows B.spent (B.kept heap.old) (B.kept heap.new) (B.blocks heap.old) (B.blocks heap.new))) }
    ensures emptied { let s = shape_in layout.now of in
        OnErr result ((n : ℕ) (t u : Tree) → Refills (B.blocks heap.old) from to s n t u
        → Empties (B.blocks heap.old) (B.blocks heap.new) to 0 (Times n s)) }
    ensures refused { let s = shape_in layout.now of in
        OnErr result ((n : ℕ) (t u : Tree) → Refills (B.blocks heap.old) from to s n t u
        → Refuses t (faults result) (Tried B.allows B.spent (B.kept heap.old) (B.kept heap.new) (sizes (B.blocks heap.old)))) }
    ensures used { let s = shape_in layout.now of in
        OnOk result ((n : ℕ) (t u : Tree) → Refills (B.blocks heap.old) from to s n t u
        → used_by (B.blocks heap.new) ≡ used_by (B.blocks heap.old) + footprint t) }
    ensures used_before { OnErr result (used_by (B.blocks heap.new) ≡ used_by (B.blocks heap.old)) }
    ensures source { let s = shape_in layout.now of in
        (n : ℕ) (t u : Tree) → Refills (B.blocks heap.old) from to s n t u → Holds (B.blocks heap.new) from 0 (Times n s) t }
{
    let copied = copy_inner(heap, from, to, layout, of);
    if copied.is_err() {
        let given = free_inner(heap, to, layout, of).is_ok();
        prove!(given);
    }
    copied
}

/// Gives back each block beneath so many elements, which stand one after another. An element is the
/// piece `of` of the layout. All else is as for `free_tree`.
///
/// # Errors
///
/// As for `free_tree`.
pub fn free_elements<B: Blocks>(
    heap: &mut B,
    block: BlockId,
    at: usize,
    layout: &Layout,
    count: usize,
    of: usize,
) -> Result<(), Pinned>
    requires numbered { of < piece_count layout.now }
    requires holds { (t : Tree) × Holds (B.blocks heap.old) block at (Times count (shape_in layout.now of)) t }
    ensures freed { let s = Times count (shape_in layout.now of) in
        (t : Tree) → Holds (B.blocks heap.old) block at s t → Frees (B.blocks heap.old) (B.blocks heap.new) block at t (is_ok result) }
    ensures unpinned { let s = Times count (shape_in layout.now of) in
        (t : Tree) → Holds (B.blocks heap.old) block at s t → IsOk result ↔ NonePinned (pins_of (B.blocks heap.old)) t }
    ensures given { let s = Times count (shape_in layout.now of) in
        OnOk result ((t : Tree) → Holds (B.blocks heap.old) block at s t → (q : ℕ) → 0 < times q t → get (B.blocks heap.new) q ≡ None) }
    ensures used { let s = Times count (shape_in layout.now of) in
        OnOk result ((t : Tree) → Holds (B.blocks heap.old) block at s t
        → used_by (B.blocks heap.new) + footprint t ≡ used_by (B.blocks heap.old)) }
    ensures used_left { let s = Times count (shape_in layout.now of) in
        (t : Tree) → Holds (B.blocks heap.old) block at s t
        → used_by (B.blocks heap.new) + footprint t ≡ used_by (B.blocks heap.old) + footprint (left (pins_of (B.blocks heap.old)) t) }
    ensures kept { B.kept heap.new ≡ B.kept heap.old }
{
    prove!(at <= heap.length(block));
    free_repeats(heap, block, at, layout, count, of)
}

/// Gives back each block beneath the elements that a block holds. An element is the piece `of` of the
/// layout. All else is as for `free_tree`; the block itself stays.
///
/// # Errors
///
/// As for `free_tree`.
pub fn free_contents<B: Blocks>(
    heap: &mut B,
    block: BlockId,
    layout: &Layout,
    of: usize,
) -> Result<(), Pinned>
    requires numbered { of < piece_count layout.now }
    requires holds { (n : ℕ) × (t : Tree) × IsContents (B.blocks heap.old) block (shape_in layout.now of) n t }
    ensures freed { let s = shape_in layout.now of in
        (n : ℕ) (t : Tree) → IsContents (B.blocks heap.old) block s n t → Frees (B.blocks heap.old) (B.blocks heap.new) block 0 t (is_ok result) }
    ensures unpinned { let s = shape_in layout.now of in
        (n : ℕ) (t : Tree) → IsContents (B.blocks heap.old) block s n t → IsOk result ↔ NonePinned (pins_of (B.blocks heap.old)) t }
    ensures given { let s = shape_in layout.now of in
        OnOk result ((n : ℕ) (t : Tree) → IsContents (B.blocks heap.old) block s n t
        → (q : ℕ) → 0 < times q t → get (B.blocks heap.new) q ≡ None) }
    ensures used { let s = shape_in layout.now of in
        OnOk result ((n : ℕ) (t : Tree) → IsContents (B.blocks heap.old) block s n t
        → used_by (B.blocks heap.new) + footprint t ≡ used_by (B.blocks heap.old)) }
    ensures used_left { let s = shape_in layout.now of in
        (n : ℕ) (t : Tree) → IsContents (B.blocks heap.old) block s n t
        → used_by (B.blocks heap.new) + footprint t ≡ used_by (B.blocks heap.old) + footprint (left (pins_of (B.blocks heap.old)) t) }
    ensures kept { B.kept heap.new ≡ B.kept heap.old }
{
    free_inner(heap, block, layout, of)
}
