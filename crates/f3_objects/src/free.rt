//! Giving back the blocks beneath an object.

ghost use Rattle.std.specs.Prelude.{◌≡◌, ◌↔◌, ◌<◌, ◌+◌, ◌*◌, ◌^◌, ℕ, None, IsOk, OnOk, is_ok, map};
ghost use Rattle.std.specs.FinMap.{get};
ghost use Rattle.f3_live_blocks.specs.Blocks.{pins_of};
ghost use Rattle.f3_heap_laws.specs.Account.{used_by};
ghost use Rattle.std.specs.List.{All};
ghost use Rattle.f3_desc.specs.Shape.{width, whole, row, shape_at, Holder, Times};
ghost use Rattle.f3_desc.specs.Layout.{pieces_of, shapes, shape_in, piece_count};
ghost use Rattle.f3_objects.specs.Tree.{Tree, times, footprint};
ghost use Rattle.f3_objects.specs.Holds.{Holds, Frees, NonePinned, IsContents, left};

use crate::holder::block_at;
use f3_desc::{Layout, Piece};
use f3_heap::{BlockId, Blocks, Pinned};

/// Gives back each block beneath the object at a place, contents before the block that holds them.
/// Its allocatables are then unallocated, and all else is unchanged. This takes no memory.
///
/// # Errors
///
/// `Pinned` exactly where a block beneath is pinned. What stands before the first pinned block is
/// then given and unallocated; that block, all beneath it and all that follows stay.
pub fn free_tree<B: Blocks>(
    heap: &mut B,
    block: BlockId,
    at: usize,
    layout: &Layout,
) -> Result<(), Pinned>
    requires { (t : Tree) × Holds (B.blocks heap.old) block at (whole (pieces_of layout.now)) t }
    ensures freed { let s = whole (pieces_of layout.now) in
        (t : Tree) → Holds (B.blocks heap.old) block at s t → Frees (B.blocks heap.old) (B.blocks heap.new) block at t (is_ok result) }
    ensures unpinned { let s = whole (pieces_of layout.now) in
        (t : Tree) → Holds (B.blocks heap.old) block at s t → IsOk result ↔ NonePinned (pins_of (B.blocks heap.old)) t }
    ensures given { let s = whole (pieces_of layout.now) in
        OnOk result ((t : Tree) → Holds (B.blocks heap.old) block at s t → (q : ℕ) → 0 < times q t → get (B.blocks heap.new) q ≡ None) }
    ensures used { let s = whole (pieces_of layout.now) in
        OnOk result ((t : Tree) → Holds (B.blocks heap.old) block at s t
        → used_by (B.blocks heap.new) + footprint t ≡ used_by (B.blocks heap.old)) }
    ensures used_left { let s = whole (pieces_of layout.now) in
        (t : Tree) → Holds (B.blocks heap.old) block at s t
        → used_by (B.blocks heap.new) + footprint t ≡ used_by (B.blocks heap.old) + footprint (left (pins_of (B.blocks heap.old)) t) }
    ensures kept { B.kept heap.new ≡ B.kept heap.old }
{
    prove!(at <= heap.length(block));
    free_piece(heap, block, at, layout, layout.last())
}

/// Gives back the blocks beneath a piece of an object.
#[cycle(free)]
pub(crate) fn free_piece<B: Blocks>(
    heap: &mut B,
    block: BlockId,
    at: usize,
    layout: &Layout,
    piece: usize,
) -> Result<(), Pinned>
    requires numbered { piece < piece_count layout.now }
    requires holds { (t : Tree) × Holds (B.blocks heap.old) block at (shape_in layout.now piece) t }
    requires bound { at + width (shape_in layout.now piece) < 2 ^ 64 }
    ensures freed { let s = shape_in layout.now piece in
        (t : Tree) → Holds (B.blocks heap.old) block at s t → Frees (B.blocks heap.old) (B.blocks heap.new) block at t (is_ok result) }
    ensures kept { B.kept heap.new ≡ B.kept heap.old }
{
    if !layout.holds_allocatable(piece) {
        return Ok(());
    }
    match layout.piece(piece) {
        Piece::Word => Ok(()),
        Piece::Allocatable { rank, of } => free_allocatable(heap, block, at, layout, *rank, *of),
        Piece::Record(parts) => free_parts(heap, block, at, layout, piece, parts),
        Piece::Array { count, of } => free_repeats(heap, block, at, layout, *count, *of),
    }
}

/// Gives back the blocks beneath parts that stand one after another.
#[cycle(free)]
fn free_parts<B: Blocks>(
    heap: &mut B,
    block: BlockId,
    at: usize,
    layout: &Layout,
    piece: usize,
    parts: &[usize],
) -> Result<(), Pinned>
    requires numbered { piece < piece_count layout.now }
    requires earlier { All (λ p. p < piece) parts.now }
    requires holds { (t : Tree) × Holds (B.blocks heap.old) block at (row (map (shape_at (shapes layout.now)) parts.now)) t }
    requires bound { at + width (row (map (shape_at (shapes layout.now)) parts.now)) < 2 ^ 64 }
    ensures freed { let s = row (map (shape_at (shapes layout.now)) parts.now) in
        (t : Tree) → Holds (B.blocks heap.old) block at s t → Frees (B.blocks heap.old) (B.blocks heap.new) block at t (is_ok result) }
    ensures kept { B.kept heap.new ≡ B.kept heap.old }
{
    let mut place = at;
    for part in parts {
        free_piece(heap, block, place, layout, *part)?;
        place += layout.words_of(*part);
    }
    Ok(())
}

/// Gives back the blocks beneath so many elements.
#[cycle(free)]
pub(crate) fn free_repeats<B: Blocks>(
    heap: &mut B,
    block: BlockId,
    at: usize,
    layout: &Layout,
    count: usize,
    of: usize,
) -> Result<(), Pinned>
    requires numbered { of < piece_count layout.now }
    requires holds { (t : Tree) × Holds (B.blocks heap.old) block at (Times count (shape_in layout.now of)) t }
    requires bound { at + count * width (shape_in layout.now of) < 2 ^ 64 }
    ensures freed { let s = Times count (shape_in layout.now of) in
        (t : Tree) → Holds (B.blocks heap.old) block at s t → Frees (B.blocks heap.old) (B.blocks heap.new) block at t (is_ok result) }
    ensures kept { B.kept heap.new ≡ B.kept heap.old }
{
    let size = layout.words_of(of);
    let mut place = at;
    for _i in 0..count {
        free_piece(heap, block, place, layout, of)?;
        place += size;
    }
    Ok(())
}

/// Gives back the blocks beneath the elements that a block holds.
#[cycle(free)]
pub(crate) fn free_inner<B: Blocks>(
    heap: &mut B,
    block: BlockId,
    layout: &Layout,
    of: usize,
) -> Result<(), Pinned>
    requires numbered { of < piece_count layout.now }
    requires holds { (n : ℕ) × (t : Tree) × IsContents (B.blocks heap.old) block (shape_in layout.now of) n t }
    ensures freed { (n : ℕ) (t : Tree) → IsContents (B.blocks heap.old) block (shape_in layout.now of) n t
        → Frees (B.blocks heap.old) (B.blocks heap.new) block 0 t (is_ok result) }
    ensures kept { B.kept heap.new ≡ B.kept heap.old }
{
    if !layout.holds_allocatable(of) {
        return Ok(());
    }
    let count = heap.length(block) / layout.words_of(of);
    free_repeats(heap, block, 0, layout, count, of)
}

/// Gives back the block of an allocatable, after those beneath it.
#[cycle(free)]
fn free_allocatable<B: Blocks>(
    heap: &mut B,
    block: BlockId,
    at: usize,
    layout: &Layout,
    rank: usize,
    of: usize,
) -> Result<(), Pinned>
    requires numbered { of < piece_count layout.now }
    requires holds { (t : Tree) × Holds (B.blocks heap.old) block at (Holder rank (shape_in layout.now of)) t }
    ensures freed { let s = Holder rank (shape_in layout.now of) in
        (t : Tree) → Holds (B.blocks heap.old) block at s t → Frees (B.blocks heap.old) (B.blocks heap.new) block at t (is_ok result) }
    ensures kept { B.kept heap.new ≡ B.kept heap.old }
{
    let Some(inner) = block_at(heap, block, at) else {
        return Ok(());
    };
    if heap.pins(inner) > 0 {
        return Err(Pinned);
    }
    free_inner(heap, inner, layout, of)?;
    heap.give(inner)?;
    heap.write(block, at, 0);
    Ok(())
}
