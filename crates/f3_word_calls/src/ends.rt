//! What ends: levels of values, and the cells of an activation.

ghost use Rattle.std.specs.Prelude.{◌≡◌, take, drop};
ghost use Rattle.f3_word_cells.specs.States.{cells_blocks, own};
ghost use Rattle.f3_word_calls.specs.Gone.{Cleared, Gone, MayGo, first_block};

use f3_heap::{BlockId, Blocks};
use f3_word_cells::giving::let_go;
use f3_word_cells::stack::Stack;
use f3_word_cells::state::State;

/// Blocks are given back, but for the first so many.
fn give_blocks<B: Blocks>(heap: &mut B, blocks: &mut Stack<BlockId>, count: usize)
    requires { MayGo (B.blocks heap.old) (drop count blocks.old.items.items) }
    ensures gone { Gone (drop count blocks.old.items.items) (B.blocks heap.old) (B.blocks heap.new) }
    ensures blocks { blocks.new.items.items ≡ take count blocks.old.items.items }
    ensures room { blocks.new.room ≡ blocks.old.room }
    ensures kept { B.kept heap.new ≡ B.kept heap.old }
{
    while blocks.items.len() > count {
        if let Some(block) = blocks.pop() {
            let _given = heap.give(block);
        }
    }
}

/// A level and all behind it end: their blocks are given back.
pub(crate) fn end_levels<B: Blocks>(
    heap: &mut B,
    levels: &mut Stack<usize>,
    blocks: &mut Stack<BlockId>,
    level: usize,
)
    requires { MayGo (B.blocks heap.old) (drop (first_block levels.old.items.items blocks.old.items.items level) blocks.old.items.items) }
    ensures gone { Gone (drop (first_block levels.old.items.items blocks.old.items.items level) blocks.old.items.items) (B.blocks heap.old) (B.blocks heap.new) }
    ensures blocks { blocks.new.items.items ≡ take (first_block levels.old.items.items blocks.old.items.items level) blocks.old.items.items }
    ensures levels { levels.new.items.items ≡ take level levels.old.items.items }
    ensures blocks_room { blocks.new.room ≡ blocks.old.room }
    ensures levels_room { levels.new.room ≡ levels.old.room }
    ensures kept { B.kept heap.new ≡ B.kept heap.old }
{
    if level >= levels.items.len() {
        return;
    }
    let first = levels.items[level];
    give_blocks(heap, blocks, first);
    levels.cut(level);
}

/// The cells of the activation at work go.
pub(crate) fn clear<B: Blocks>(heap: &mut B, state: &mut State)
    requires { MayGo (B.blocks heap.old) (cells_blocks (own state.old)) }
    ensures cleared { Cleared (B.blocks heap.old) (B.blocks heap.new) state.old state.new }
    ensures kept { B.kept heap.new ≡ B.kept heap.old }
{
    while let Some(cell) = state.pop() {
        let_go(heap, cell);
    }
}
