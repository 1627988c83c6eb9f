//! How a level of variables begins.

ghost use Rattle.std.specs.Prelude.{◌≡◌, ◌↔◌, ◌≤◌, ◌+◌, false, IfOk, OnErr};
ghost use Rattle.f3_heap_laws.specs.Account.{used_by, r as taken_for};
ghost use Rattle.f3_heap_laws.specs.Answers.{sizes};
ghost use Rattle.f3_heap.specs.Answers.{answer_of};
ghost use Rattle.f3_rooms.specs.Forms.{total};
ghost use Rattle.f3_room_places.specs.Places.{HasTables, shapes};
ghost use Rattle.f3_room_levels.specs.Initial.{AllCanBegin};
ghost use Rattle.f3_room_levels.specs.Levels.{Begins};

use crate::writing::write_initial;
use f3_heap::{BlockId, Blocks, TakeFault};
use f3_program::declarations::Declared;
use f3_room_places::types::Types;

/// Takes a block of so many words, at whose front variables begin with their initial values, one after another
/// (ISO/IEC 1539-1:2004, 16.5.6). Words behind them are 0.
///
/// # Errors
///
/// `Full` exactly where the heap has no room for the words, and `Memory` where the host refused memory,
/// as the heap's rule allows. Nothing has changed then.
pub fn begin<B: Blocks>(
    heap: &mut B,
    types: Types<'_>,
    declared: &[Declared],
    words: usize,
) -> Result<BlockId, TakeFault>
    requires tables { HasTables types }
    requires fit { AllCanBegin (shapes types) declared.now }
    requires long { total (shapes types) declared.now ≤ words }
    ensures begun { IfOk result (Begins (shapes types.entry) (B.blocks heap.old) (B.blocks heap.new) declared.now words) }
    ensures used { IfOk result (λ b. used_by (B.blocks heap.new) ≡ used_by (B.blocks heap.old) + taken_for words) }
    ensures full { (result ≡ Err TakeFault.Full) ↔ (B.has_room heap.old words ≡ false) }
    ensures allowed { B.allows (B.kept heap.old) (sizes (B.blocks heap.old)) words (answer_of result) }
    ensures refused { OnErr result (B.blocks heap.new ≡ B.blocks heap.old) }
    ensures kept { B.kept heap.new ≡ B.spent (B.kept heap.old) }
{
    let block = heap.take(words)?;
    write_initial(heap, types, declared, block);
    Ok(block)
}
