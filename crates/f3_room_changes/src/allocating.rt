//! Allocating what an allocatable holds.

ghost use Rattle.std.specs.Prelude.{◌≡◌, ◌↔◌, ℕ, List, false, OnOk, OnErr, IfErr};
ghost use Rattle.f3_heap_laws.specs.Answers.{sizes};
ghost use Rattle.f3_heap.specs.Answers.{fault_answer};
ghost use Rattle.f3_meaning_whole.specs.Exec.{too_many};
ghost use Rattle.f3_meaning_whole.specs.Shape.{Shape};
ghost use Rattle.f3_meaning_whole.specs.Store.{Root, Step};
ghost use Rattle.f3_data.specs.Values.{spans_of};
ghost use Rattle.f3_rooms.specs.Rooms.{Rooms};
ghost use Rattle.f3_rooms.specs.Places.{Found};
ghost use Rattle.f3_room_changes.specs.Allocations.{IsVacant, Allocates};

use crate::bounds::write_holder;
use f3_data::value::Span;
use f3_heap::{BlockId, Blocks, TakeFault};

/// Allocates an object of so many words, or an array with these bounds, for an allocatable that holds
/// nothing (ISO/IEC 1539-1:2004, 6.3.1). Its words are 0.
///
/// # Errors
///
/// `Full` exactly where the heap has no room for the words, and `Memory` where the host refused memory,
/// as the heap's rule allows. Nothing has changed then.
pub fn allocate<B: Blocks>(
    heap: &mut B,
    block: BlockId,
    at: usize,
    spans: &[Span],
    words: usize,
) -> Result<(), TakeFault>
    requires vacant { (ts : List Shape) × (x : Rooms) × (r : Root) × (way : List Step) × (f : Found) × IsVacant ts (B.blocks heap.old) x r way f block at (spans_of spans.now) words }
    requires counted { too_many (spans_of spans.now) ≡ false }
    ensures allocated { OnOk result ((ts : List Shape) (x : Rooms) (r : Root) (way : List Step) (f : Found)
        → IsVacant ts (B.blocks heap.old) x r way f block at (spans_of spans.now) words
        → Allocates ts (B.blocks heap.old) (B.blocks heap.new) x r way f (spans_of spans.now)
        (B.allows (B.kept heap.old) (sizes (B.blocks heap.old)) words)) }
    ensures full { (result ≡ Err TakeFault.Full) ↔ (B.has_room heap.old words ≡ false) }
    ensures tried { IfErr result (λ fault. B.allows (B.kept heap.old) (sizes (B.blocks heap.old)) words (fault_answer fault)) }
    ensures refused { OnErr result (B.blocks heap.new ≡ B.blocks heap.old) }
    ensures kept { B.kept heap.new ≡ B.spent (B.kept heap.old) }
{
    let held = heap.take(words)?;
    write_holder(heap, block, at, held, spans);
    Ok(())
}
