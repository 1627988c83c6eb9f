//! Copying an object with all blocks beneath it.

ghost use Rattle.std.specs.Prelude.{◌≡◌, ◌<◌, ◌+◌, ◌^◌, ℕ, [], None, OnOk, OnErr, IfOk, map, length};
ghost use Rattle.std.specs.FinMap.{get};
ghost use Rattle.std.specs.List.{All};
ghost use Rattle.f3_live_blocks.specs.Blocks.{IsLive, words_of, with_taken};
ghost use Rattle.f3_heap_laws.specs.Account.{used_by};
ghost use Rattle.f3_heap_laws.specs.Answers.{sizes, Took, Tried};
ghost use Rattle.f3_desc.specs.Shape.{width, whole, row, shape_at, Holder, Times};
ghost use Rattle.f3_desc.specs.Layout.{pieces_of, shapes, shape_in, piece_count};
ghost use Rattle.f3_objects.specs.Tree.{Tree, words, footprint};
ghost use Rattle.f3_objects.specs.Holds.{Holds};
ghost use Rattle.f3_objects.specs.Copies.{Ready, Copies, Empties, Refuses, faults};
ghost use Rattle.f3_objects.specs.Inner.OneTake.{one_take};

use crate::free::free_piece;
use crate::holder::block_at;
use crate::words::{copy_words, link_copy};
use f3_desc::{Layout, Piece};
use f3_heap::{BlockId, Blocks, TakeFault};

/// Why an object could not be copied.
#[derive(Clone, Copy, Debug, PartialEq, Eq)]
pub enum TreeFault {
    /// The heap has no room for a block of the copy.
    Full,
    /// The host refused memory.
    Memory,
}

/// Copies the object at a place, with all blocks beneath it, to a place where nothing is allocated.
/// The copy has the same values and bounds, in new blocks. The object itself is unchanged.
///
/// The blocks of the copy are taken in order, each before those beneath it, and are as long as those
/// beneath the object. Each take has an answer that the heap's rule allows.
///
/// # Errors
///
/// `Full` or `Memory`, as the heap answered the first take that it refused. What was taken is then
/// given back, and nothing is allocated at the target.
pub fn copy_tree<B: Blocks>(
    heap: &mut B,
    from: BlockId,
    from_at: usize,
    to: BlockId,
    to_at: usize,
    layout: &Layout,
) -> Result<(), TreeFault>
    requires { (t : Tree) × (u : Tree) × Ready (B.blocks heap.old) from from_at to to_at (whole (pieces_of layout.now)) t u }
    ensures copied { let s = whole (pieces_of layout.now) in
        OnOk result ((t u : Tree) → Ready (B.blocks heap.old) from from_at to to_at s t u
        → Copies (B.blocks heap.old) (B.blocks heap.new) to to_at s t u []
        (Took B.allows B.spent (B.kept heap.old) (B.kept heap.new) (B.blocks heap.old) (B.blocks heap.new))) }
    ensures emptied { let s = whole (pieces_of layout.now) in
        OnErr result ((t u : Tree) → Ready (B.blocks heap.old) from from_at to to_at s t u
        → Empties (B.blocks heap.old) (B.blocks heap.new) to to_at s) }
    ensures refused { let s = whole (pieces_of layout.now) in
        OnErr result ((t u : Tree) → Ready (B.blocks heap.old) from from_at to to_at s t u
        → Refuses t (faults result) (Tried B.allows B.spent (B.kept heap.old) (B.kept heap.new) (sizes (B.blocks heap.old)))) }
    ensures used { let s = whole (pieces_of layout.now) in
        OnOk result ((t u : Tree) → Ready (B.blocks heap.old) from from_at to to_at s t u
        → used_by (B.blocks heap.new) ≡ used_by (B.blocks heap.old) + footprint t) }
    ensures used_before { OnErr result (used_by (B.blocks heap.new) ≡ used_by (B.blocks heap.old)) }
    ensures source { let s = whole (pieces_of layout.now) in
        (t u : Tree) → Ready (B.blocks heap.old) from from_at to to_at s t u → Holds (B.blocks heap.new) from from_at s t }
{
    prove!(from_at <= heap.length(from));
    prove!(to_at <= heap.length(to));
    let last = layout.last();
    let copied = copy_piece(heap, from, from_at, to, to_at, layout, last);
    if copied.is_err() {
        let given = free_piece(heap, to, to_at, layout, last).is_ok();
        prove!(given);
    }
    copied
}

/// Copies a piece of an object. After a fault what was copied stands.
#[cycle(copy)]
fn copy_piece<B: Blocks>(
    heap: &mut B,
    from: BlockId,
    from_at: usize,
    to: BlockId,
    to_at: usize,
    layout: &Layout,
    piece: usize,
) -> Result<(), TreeFault>
    requires numbered { piece < piece_count layout.now }
    requires ready { (t : Tree) × (u : Tree) × Ready (B.blocks heap.old) from from_at to to_at (shape_in layout.now piece) t u }
    requires from_bound { from_at + width (shape_in layout.now piece) < 2 ^ 64 }
    requires to_bound { to_at + width (shape_in layout.now piece) < 2 ^ 64 }
    ensures { let s = shape_in layout.now piece in
        (t u : Tree) → Ready (B.blocks heap.old) from from_at to to_at s t u
        → Copies (B.blocks heap.old) (B.blocks heap.new) to to_at s t u (faults result)
        (Took B.allows B.spent (B.kept heap.old) (B.kept heap.new) (B.blocks heap.old) (B.blocks heap.new)) }
{
    if !layout.holds_allocatable(piece) {
        copy_words(heap, from, from_at, to, to_at, layout.words_of(piece));
        return Ok(());
    }
    match layout.piece(piece) {
        Piece::Word => Ok(()),
        Piece::Allocatable { rank, of } => {
            copy_allocatable(heap, from, from_at, to, to_at, layout, *rank, *of)
        }
        Piece::Record(parts) => copy_parts(heap, from, from_at, to, to_at, layout, piece, parts),
        Piece::Array { count, of } => {
            copy_repeats(heap, from, from_at, to, to_at, layout, *count, *of)
        }
    }
}

/// Copies parts that stand one after another. After a fault what was copied stands.
#[cycle(copy)]
fn copy_parts<B: Blocks>(
    heap: &mut B,
    from: BlockId,
    from_at: usize,
    to: BlockId,
    to_at: usize,
    layout: &Layout,
    piece: usize,
    parts: &[usize],
) -> Result<(), TreeFault>
    requires numbered { piece < piece_count layout.now }
    requires earlier { All (λ p. p < piece) parts.now }
    requires ready { (t : Tree) × (u : Tree) × Ready (B.blocks heap.old) from from_at to to_at (row (map (shape_at (shapes layout.now)) parts.now)) t u }
    requires from_bound { from_at + width (row (map (shape_at (shapes layout.now)) parts.now)) < 2 ^ 64 }
    requires to_bound { to_at + width (row (map (shape_at (shapes layout.now)) parts.now)) < 2 ^ 64 }
    ensures { let s = row (map (shape_at (shapes layout.now)) parts.now) in
        (t u : Tree) → Ready (B.blocks heap.old) from from_at to to_at s t u
        → Copies (B.blocks heap.old) (B.blocks heap.new) to to_at s t u (faults result)
        (Took B.allows B.spent (B.kept heap.old) (B.kept heap.new) (B.blocks heap.old) (B.blocks heap.new)) }
{
    let mut from_place = from_at;
    let mut to_place = to_at;
    for part in parts {
        copy_piece(heap, from, from_place, to, to_place, layout, *part)?;
        let size = layout.words_of(*part);
        from_place += size;
        to_place += size;
    }
    Ok(())
}

/// Copies so many elements. After a fault what was copied stands.
#[cycle(copy)]
pub(crate) fn copy_repeats<B: Blocks>(
    heap: &mut B,
    from: BlockId,
    from_at: usize,
    to: BlockId,
    to_at: usize,
    layout: &Layout,
    count: usize,
    of: usize,
) -> Result<(), TreeFault>
    requires numbered { of < piece_count layout.now }
    requires ready { (t : Tree) × (u : Tree) × Ready (B.blocks heap.old) from from_at to to_at (Times count (shape_in layout.now of)) t u }
    requires from_bound { from_at + width (Times count (shape_in layout.now of)) < 2 ^ 64 }
    requires to_bound { to_at + width (Times count (shape_in layout.now of)) < 2 ^ 64 }
    ensures { let s = Times count (shape_in layout.now of) in
        (t u : Tree) → Ready (B.blocks heap.old) from from_at to to_at s t u
        → Copies (B.blocks heap.old) (B.blocks heap.new) to to_at s t u (faults result)
        (Took B.allows B.spent (B.kept heap.old) (B.kept heap.new) (B.blocks heap.old) (B.blocks heap.new)) }
{
    let size = layout.words_of(of);
    let mut from_place = from_at;
    let mut to_place = to_at;
    for _i in 0..count {
        copy_piece(heap, from, from_place, to, to_place, layout, of)?;
        from_place += size;
        to_place += size;
    }
    Ok(())
}

/// Copies the elements that one block holds into another of its length. After a fault what was copied
/// stands.
#[cycle(copy)]
pub(crate) fn copy_inner<B: Blocks>(
    heap: &mut B,
    from: BlockId,
    to: BlockId,
    layout: &Layout,
    of: usize,
) -> Result<(), TreeFault>
    requires numbered { of < piece_count layout.now }
    requires ready { (n : ℕ) × (t : Tree) × (u : Tree) × Ready (B.blocks heap.old) from 0 to 0 (Times n (shape_in layout.now of)) t u
        × (words_of (B.blocks heap.old) from ≡ words t) }
    ensures { (n : ℕ) (t u : Tree) → Ready (B.blocks heap.old) from 0 to 0 (Times n (shape_in layout.now of)) t u
        → words_of (B.blocks heap.old) from ≡ words t
        → Copies (B.blocks heap.old) (B.blocks heap.new) to 0 (Times n (shape_in layout.now of)) t u (faults result)
        (Took B.allows B.spent (B.kept heap.old) (B.kept heap.new) (B.blocks heap.old) (B.blocks heap.new)) }
{
    let length = heap.length(from);
    if !layout.holds_allocatable(of) {
        copy_words(heap, from, 0, to, 0, length);
        return Ok(());
    }
    let count = length / layout.words_of(of);
    copy_repeats(heap, from, 0, to, 0, layout, count, of)
}

/// Copies an allocatable: its bounds, and its block with what stands beneath.
#[cycle(copy)]
fn copy_allocatable<B: Blocks>(
    heap: &mut B,
    from: BlockId,
    from_at: usize,
    to: BlockId,
    to_at: usize,
    layout: &Layout,
    rank: usize,
    of: usize,
) -> Result<(), TreeFault>
    requires numbered { of < piece_count layout.now }
    requires ready { (t : Tree) × (u : Tree) × Ready (B.blocks heap.old) from from_at to to_at (Holder rank (shape_in layout.now of)) t u }
    requires from_bound { from_at + width (Holder rank (shape_in layout.now of)) < 2 ^ 64 }
    requires to_bound { to_at + width (Holder rank (shape_in layout.now of)) < 2 ^ 64 }
    ensures { let s = Holder rank (shape_in layout.now of) in
        (t u : Tree) → Ready (B.blocks heap.old) from from_at to to_at s t u
        → Copies (B.blocks heap.old) (B.blocks heap.new) to to_at s t u (faults result)
        (Took B.allows B.spent (B.kept heap.old) (B.kept heap.new) (B.blocks heap.old) (B.blocks heap.new)) }
{
    let Some(inner) = block_at(heap, from, from_at) else {
        return Ok(());
    };
    let copy = take_same(heap, inner)?;
    link_copy(heap, from, from_at, to, to_at, copy, rank);
    copy_inner(heap, inner, copy, layout, of)
}

/// Takes a block of zeros, as long as another.
fn take_same<B: Blocks>(heap: &mut B, block: BlockId) -> Result<BlockId, TreeFault>
    requires { IsLive (B.blocks heap.old) block }
    ensures fresh { IfOk result (λ b. get (B.blocks heap.old) b ≡ None) }
    ensures taken { IfOk result (λ b. B.blocks heap.new ≡ with_taken (B.blocks heap.old) b (length (words_of (B.blocks heap.old) block))) }
    ensures refused { OnErr result (B.blocks heap.new ≡ B.blocks heap.old) }
    ensures took { Took B.allows B.spent (B.kept heap.old) (B.kept heap.new) (B.blocks heap.old) (B.blocks heap.new)
        (one_take (length (words_of (B.blocks heap.old) block)) result) }
{
    let length = heap.length(block);
    match heap.take(length) {
        Ok(taken) => Ok(taken),
        Err(TakeFault::Full) => Err(TreeFault::Full),
        Err(TakeFault::Memory) => Err(TreeFault::Memory),
    }
}
