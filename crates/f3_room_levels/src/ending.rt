//! How a level of variables ends.

ghost use Rattle.std.specs.Prelude.{◌≡◌, ◌↔◌, ◌<◌, ℕ, List, IsOk, OnOk, OnErr};
ghost use Rattle.f3_live_blocks.specs.Blocks.{pins_of};
ghost use Rattle.f3_meaning_whole.specs.Shape.{Shape};
ghost use Rattle.f3_desc.specs.Shape.{whole};
ghost use Rattle.f3_desc.specs.Layout.{pieces_of};
ghost use Rattle.f3_objects.specs.Holds.{Replaces, left};
ghost use Rattle.f3_rooms.specs.Held.{times};
ghost use Rattle.f3_rooms.specs.Rooms.{Room, room_blocks};
ghost use Rattle.f3_room_places.specs.Places.{HasTables, shapes};
ghost use Rattle.f3_room_types.specs.Layouts.{AreLayouts};
ghost use Rattle.f3_room_levels.specs.Levels.{StandAlone, StandLaid, Ends, room_tree};

use crate::giving::free_variables;
use f3_desc::Layout;
use f3_heap::{BlockId, Blocks, Pinned};
use f3_objects::free_tree;
use f3_program::declarations::Declared;
use f3_room_places::types::Types;
use f3_room_types::layouts::Layouts;

/// Gives back all that the variables at the front of a block hold, beneath too, and then the block (ISO/IEC 1539-1:2004, 6.3.3.1).
/// This takes no memory.
///
/// # Errors
///
/// `Pinned` exactly where the block or one that is held is pinned. What stands before the first such block is then given back; that
/// block, all beneath it and all that follows stay, and the block of the variables stays.
pub fn end<B: Blocks>(
    heap: &mut B,
    types: Types<'_>,
    layouts: &Layouts,
    declared: &[Declared],
    block: BlockId,
) -> Result<(), Pinned>
    requires tables { HasTables types }
    requires layouts { AreLayouts (shapes types) layouts.now }
    requires alone { (r : Room) × StandAlone (shapes types) (B.blocks heap.old) declared.now block r }
    ensures ended { OnOk result ((r : Room) → StandAlone (shapes types.entry) (B.blocks heap.old) declared.now block r
        → Ends (shapes types.entry) (B.blocks heap.old) (B.blocks heap.new) r) }
    ensures unpinned { (r : Room) → StandAlone (shapes types.entry) (B.blocks heap.old) declared.now block r
        → IsOk result ↔ ((q : ℕ) → 0 < times q (room_blocks r) → pins_of (B.blocks heap.old) q ≡ 0) }
    ensures refused { OnErr result ((r : Room) → StandAlone (shapes types.entry) (B.blocks heap.old) declared.now block r
        → let t = room_tree (shapes types.entry) (B.blocks heap.old) r in Replaces (B.blocks heap.old) (B.blocks heap.new) block 0 t (left (pins_of (B.blocks heap.old)) t)) }
    ensures kept { B.kept heap.new ≡ B.kept heap.old }
{
    match free_variables(heap, types, layouts, declared, block) {
        Ok(()) => heap.give(block),
        Err(pinned) => Err(pinned),
    }
}

/// Ends variables as `end` does, where their layout is at hand, one after another as the components of an object.
///
/// # Errors
///
/// As for `end`.
pub fn end_laid<B: Blocks>(heap: &mut B, layout: &Layout, block: BlockId) -> Result<(), Pinned>
    requires { (ts : List Shape) × (r : Room) × StandLaid ts (B.blocks heap.old) (whole (pieces_of layout.now)) block r }
    ensures ended { OnOk result ((ts : List Shape) (r : Room) → StandLaid ts (B.blocks heap.old) (whole (pieces_of layout.now)) block r
        → Ends ts (B.blocks heap.old) (B.blocks heap.new) r) }
    ensures unpinned { (ts : List Shape) (r : Room) → StandLaid ts (B.blocks heap.old) (whole (pieces_of layout.now)) block r
        → IsOk result ↔ ((q : ℕ) → 0 < times q (room_blocks r) → pins_of (B.blocks heap.old) q ≡ 0) }
    ensures refused { OnErr result ((ts : List Shape) (r : Room) → StandLaid ts (B.blocks heap.old) (whole (pieces_of layout.now)) block r
        → let t = room_tree ts (B.blocks heap.old) r in Replaces (B.blocks heap.old) (B.blocks heap.new) block 0 t (left (pins_of (B.blocks heap.old)) t)) }
    ensures kept { B.kept heap.new ≡ B.kept heap.old }
{
    match free_tree(heap, block, 0, layout) {
        Ok(()) => heap.give(block),
        Err(pinned) => Err(pinned),
    }
}
