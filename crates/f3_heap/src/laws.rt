//! Laws of the heap in one region of words.

ghost use Rattle.f3_heap.specs.Laws.{AnswersAreOne, FreeBlocksTellTheirSize, FreeRunsAreGaps, NeverWantsMemory};

/// The free blocks, and the words behind the last block where there are any, are the gaps of the
/// region in order.
pub fn free_runs_are_gaps()
    ensures { FreeRunsAreGaps }
{}

/// A free block's first word and its last tell its size.
pub fn free_blocks_tell_their_size()
    ensures { FreeBlocksTellTheirSize }
{}

/// Takes of the same words, in turn, have the same answers in a region.
pub fn answers_are_one()
    ensures { AnswersAreOne }
{}

/// A region allows no answer that memory is wanting.
pub fn never_wants_memory()
    ensures { NeverWantsMemory }
{}
