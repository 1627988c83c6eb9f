//! The variables of a procedure that is called.

ghost use Rattle.std.specs.Prelude.{◌≡◌, false, IfOk, OnErr};
ghost use Rattle.f3_heap_laws.specs.Answers.{sizes};
ghost use Rattle.f3_heap.specs.Answers.{answer_of};
ghost use Rattle.f3_meaning_whole.specs.Exec.{declared_in};
ghost use Rattle.f3_rooms.specs.Forms.{total};
ghost use Rattle.f3_room_places.specs.Places.{HasTables, shapes};
ghost use Rattle.f3_room_levels.specs.Initial.{AllCanBegin};
ghost use Rattle.f3_room_levels.specs.Levels.{Begins};

use f3_heap::{BlockId, Blocks, TakeFault};
use f3_program::program::Procedure;
use f3_room_levels::{room_of, write_declared, write_initial};
use f3_room_places::types::Types;

/// Takes a block of just the words of the variables of a procedure, where they begin with their initial values, a result behind the
/// others (ISO/IEC 1539-1:2004, 12.5.2.1, 16.5.6).
///
/// # Errors
///
/// `Full` where the heap has no room for the words, and `Memory` where the host refused memory, as the heap's rule allows. Nothing has
/// changed then.
pub(crate) fn begin_variables<B: Blocks>(
    heap: &mut B,
    types: Types<'_>,
    procedure: &Procedure,
    words: usize,
) -> Result<BlockId, TakeFault>
    requires tables { HasTables types }
    requires fit { AllCanBegin (shapes types) (declared_in procedure.now) }
    requires long { words ≡ total (shapes types) (declared_in procedure.now) }
    ensures begun { IfOk result (Begins (shapes types.entry) (B.blocks heap.old) (B.blocks heap.new) (declared_in procedure.now) words) }
    ensures full { result ≡ Err TakeFault.Full → B.has_room heap.old words ≡ false }
    ensures allowed { B.allows (B.kept heap.old) (sizes (B.blocks heap.old)) words (answer_of result) }
    ensures refused { OnErr result (B.blocks heap.new ≡ B.blocks heap.old) }
    ensures kept { B.kept heap.new ≡ B.spent (B.kept heap.old) }
{
    let block = heap.take(words)?;
    write_initial(heap, types, &procedure.locals, block);
    if let Some(result) = &procedure.result {
        let behind = words - room_of(types, result);
        write_declared(heap, types, result, block, behind);
    }
    Ok(block)
}
