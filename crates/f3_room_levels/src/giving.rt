//! What variables hold, given back.

ghost use Rattle.std.specs.Prelude.{◌≡◌, ◌<◌, ℕ, length, is_ok};
ghost use Rattle.f3_live_blocks.specs.Blocks.{IsLive, words_of};
ghost use Rattle.f3_desc.specs.Shape.{Shape, Holder};
ghost use Rattle.f3_desc.specs.Layout.{piece_count, shape_in};
ghost use Rattle.f3_objects.specs.Tree.{Tree, first_block};
ghost use Rattle.f3_objects.specs.Holds.{Holds, Frees};
ghost use Rattle.f3_room_places.specs.Places.{HasTables, shapes};
ghost use Rattle.f3_room_types.specs.Layouts.{AreLayouts};
ghost use Rattle.f3_room_levels.specs.Levels.{variable_layout, room_layout};

use crate::sizes::room_of;
use f3_desc::Layout;
use f3_heap::{BlockId, Blocks, Pinned};
use f3_objects::{free_contents, free_elements};
use f3_program::declarations::Declared;
use f3_room_places::types::Types;
use f3_room_types::layouts::Layouts;

/// The block of what an allocatable holds, if it holds something.
fn block_held<B: Blocks>(heap: &B, block: BlockId, at: usize) -> Option<BlockId>
    requires live { IsLive (B.blocks heap.now) block }
    requires within { at < length (words_of (B.blocks heap.now) block) }
    ensures { (rank : ℕ) (s : Shape) (t : Tree) → Holds (B.blocks heap.now) block at (Holder rank s) t → result ≡ first_block t }
{
    BlockId::of(heap.read(block, at))
}

/// Gives back what an allocatable holds, elements that are a piece of a layout.
fn free_held<B: Blocks>(
    heap: &mut B,
    block: BlockId,
    at: usize,
    layout: &Layout,
    of: usize,
) -> Result<(), Pinned>
    requires numbered { of < piece_count layout.now }
    requires holds { (rank : ℕ) × (t : Tree) × Holds (B.blocks heap.old) block at (Holder rank (shape_in layout.now of)) t }
    ensures freed { let s = shape_in layout.now of in
        (rank : ℕ) (t : Tree) → Holds (B.blocks heap.old) block at (Holder rank s) t → Frees (B.blocks heap.old) (B.blocks heap.new) block at t (is_ok result) }
    ensures kept { B.kept heap.new ≡ B.kept heap.old }
{
    let Some(inner) = block_held(heap, block, at) else {
        return Ok(());
    };
    if heap.pins(inner) > 0 {
        return Err(Pinned);
    }
    match free_contents(heap, inner, layout, of) {
        Ok(()) => {}
        Err(pinned) => return Err(pinned),
    }
    match heap.give(inner) {
        Ok(()) => {}
        Err(pinned) => return Err(pinned),
    }
    heap.write(block, at, 0);
    Ok(())
}

/// Gives back what a variable holds, by the layout of its type.
fn free_variable<B: Blocks>(
    heap: &mut B,
    types: Types<'_>,
    layouts: &Layouts,
    declared: &Declared,
    block: BlockId,
    at: usize,
) -> Result<(), Pinned>
    requires tables { HasTables types }
    requires layouts { AreLayouts (shapes types) layouts.now }
    requires holds { (t : Tree) × Holds (B.blocks heap.old) block at (variable_layout (shapes types) declared.now) t }
    ensures freed { let s = variable_layout (shapes types.entry) declared.now in
        (t : Tree) → Holds (B.blocks heap.old) block at s t → Frees (B.blocks heap.old) (B.blocks heap.new) block at t (is_ok result) }
    ensures kept { B.kept heap.new ≡ B.kept heap.old }
{
    let piece = layouts.piece_of(declared.kind.of);
    if declared.kind.is_allocatable {
        return free_held(heap, block, at, &layouts.layout, piece);
    }
    if !layouts.layout.holds_allocatable(piece) {
        return Ok(());
    }
    prove!(at <= heap.length(block));
    let count = room_of(types, declared) / layouts.layout.words_of(piece);
    free_elements(heap, block, at, &layouts.layout, count, piece)
}

/// Gives back what variables hold that stand one after another at the front of a block.
pub(crate) fn free_variables<B: Blocks>(
    heap: &mut B,
    types: Types<'_>,
    layouts: &Layouts,
    declared: &[Declared],
    block: BlockId,
) -> Result<(), Pinned>
    requires tables { HasTables types }
    requires layouts { AreLayouts (shapes types) layouts.now }
    requires holds { (t : Tree) × Holds (B.blocks heap.old) block 0 (room_layout (shapes types) declared.now) t }
    ensures freed { let s = room_layout (shapes types.entry) declared.now in
        (t : Tree) → Holds (B.blocks heap.old) block 0 s t → Frees (B.blocks heap.old) (B.blocks heap.new) block 0 t (is_ok result) }
    ensures kept { B.kept heap.new ≡ B.kept heap.old }
{
    prove!(0 <= heap.length(block));
    let mut at = 0;
    for variable in declared {
        match free_variable(heap, types, layouts, variable, block, at) {
            Ok(()) => at += room_of(types, variable),
            Err(pinned) => return Err(pinned),
        }
    }
    Ok(())
}
