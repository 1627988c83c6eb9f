//! Random objects.

ghost use Rattle.std.specs.Prelude.{◌≡◌, ◌<◌, ◌+◌, ◌*◌, ◌^◌, ℕ, map};
ghost use Rattle.std.specs.List.{All};
ghost use Rattle.f3_desc.specs.Shape.{width, whole, row, shape_at, Holder, Times};
ghost use Rattle.f3_desc.specs.Layout.{pieces_of, shapes, shape_in, piece_count};
ghost use Rattle.f3_objects.specs.Tree.{Tree, IsBare};
ghost use Rattle.f3_objects.specs.Holds.{Holds};
ghost use Rattle.f3_objects_tests.specs.Grows.{Grows};

use crate::dice::Dice;
use crate::holders::link;
use f3_desc::{Layout, Piece};
use f3_heap::{BlockId, Blocks};

/// Allocates at random beneath an object with nothing allocated, as far as the heap has room.
pub fn grow<B: Blocks>(heap: &mut B, block: BlockId, at: usize, layout: &Layout, dice: &mut Dice)
    requires { (t : Tree) × Holds (B.blocks heap.old) block at (whole (pieces_of layout.now)) t × IsBare t }
    ensures { let s = whole (pieces_of layout.now) in
        (t : Tree) → Holds (B.blocks heap.old) block at s t → IsBare t → Grows (B.blocks heap.old) (B.blocks heap.new) block at s t }
{
    prove!(at <= heap.length(block));
    grow_piece(heap, block, at, layout, layout.last(), dice);
}

#[cycle(grow)]
fn grow_piece<B: Blocks>(
    heap: &mut B,
    block: BlockId,
    at: usize,
    layout: &Layout,
    piece: usize,
    dice: &mut Dice,
)
    requires numbered { piece < piece_count layout.now }
    requires holds { (t : Tree) × Holds (B.blocks heap.old) block at (shape_in layout.now piece) t × IsBare t }
    requires bound { at + width (shape_in layout.now piece) < 2 ^ 64 }
    ensures { let s = shape_in layout.now piece in
        (t : Tree) → Holds (B.blocks heap.old) block at s t → IsBare t → Grows (B.blocks heap.old) (B.blocks heap.new) block at s t }
{
    match layout.piece(piece) {
        Piece::Word => {}
        Piece::Allocatable { rank, of } => {
            grow_allocatable(heap, block, at, layout, *rank, *of, dice);
        }
        Piece::Record(parts) => grow_parts(heap, block, at, layout, piece, parts, dice),
        Piece::Array { count, of } => grow_elements(heap, block, at, layout, *count, *of, dice),
    }
}

#[cycle(grow)]
fn grow_parts<B: Blocks>(
    heap: &mut B,
    block: BlockId,
    at: usize,
    layout: &Layout,
    piece: usize,
    parts: &[usize],
    dice: &mut Dice,
)
    requires numbered { piece < piece_count layout.now }
    requires earlier { All (λ p. p < piece) parts.now }
    requires holds { (t : Tree) × Holds (B.blocks heap.old) block at (row (map (shape_at (shapes layout.now)) parts.now)) t × IsBare t }
    requires bound { at + width (row (map (shape_at (shapes layout.now)) parts.now)) < 2 ^ 64 }
    ensures { let s = row (map (shape_at (shapes layout.now)) parts.now) in
        (t : Tree) → Holds (B.blocks heap.old) block at s t → IsBare t → Grows (B.blocks heap.old) (B.blocks heap.new) block at s t }
{
    let mut place = at;
    for part in parts {
        grow_piece(heap, block, place, layout, *part, dice);
        place += layout.words_of(*part);
    }
}

#[cycle(grow)]
fn grow_elements<B: Blocks>(
    heap: &mut B,
    block: BlockId,
    at: usize,
    layout: &Layout,
    count: usize,
    of: usize,
    dice: &mut Dice,
)
    requires numbered { of < piece_count layout.now }
    requires holds { (t : Tree) × Holds (B.blocks heap.old) block at (Times count (shape_in layout.now of)) t × IsBare t }
    requires bound { at + count * width (shape_in layout.now of) < 2 ^ 64 }
    ensures { let s = Times count (shape_in layout.now of) in
        (t : Tree) → Holds (B.blocks heap.old) block at s t → IsBare t → Grows (B.blocks heap.old) (B.blocks heap.new) block at s t }
{
    let size = layout.words_of(of);
    let mut place = at;
    for _i in 0..count {
        grow_piece(heap, block, place, layout, of, dice);
        place += size;
    }
}

#[cycle(grow)]
fn grow_allocatable<B: Blocks>(
    heap: &mut B,
    block: BlockId,
    at: usize,
    layout: &Layout,
    rank: usize,
    of: usize,
    dice: &mut Dice,
)
    requires numbered { of < piece_count layout.now }
    requires holds { (t : Tree) × Holds (B.blocks heap.old) block at (Holder rank (shape_in layout.now of)) t × IsBare t }
    ensures { let s = Holder rank (shape_in layout.now of) in
        (t : Tree) → Holds (B.blocks heap.old) block at s t → IsBare t → Grows (B.blocks heap.old) (B.blocks heap.new) block at s t }
{
    if rank > 1 || dice.below(4) == 0 {
        return;
    }
    let count = if rank == 0 { 1 } else { dice.below(4) as usize };
    let Some(words) = count.checked_mul(layout.words_of(of)) else {
        return;
    };
    let Ok(inner) = heap.take(words) else {
        return;
    };
    link(heap, block, at, inner, rank, count);
    grow_elements(heap, inner, 0, layout, count, of, dice);
}
