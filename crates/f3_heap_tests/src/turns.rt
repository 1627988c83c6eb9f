//! One call on a heap whose live blocks stand in a queue.

ghost use Rattle.std.specs.Prelude.{IfOk, IfSome};
ghost use Rattle.f3_live_blocks.specs.Blocks.{IsLive};
ghost use Rattle.f3_heap_tests.specs.LiveOnce.{LiveOnce};

use f3_heap::{BlockId, Blocks, TakeFault};
use std::alloc::AllocError;
use std::collections::VecDeque;

/// Takes a block, which then stands last in the queue, if there is room.
pub fn take_back<B: Blocks>(
    heap: &mut B,
    queue: &mut VecDeque<BlockId>,
    words: usize,
) -> Result<Option<BlockId>, AllocError>
    requires { LiveOnce (B.blocks heap.old) queue.old.items }
    ensures { LiveOnce (B.blocks heap.new) queue.new.items }
{
    match heap.take(words) {
        Ok(block) => {
            queue.push_back(block)?;
            Ok(Some(block))
        }
        Err(TakeFault::Full) => Ok(None),
        Err(TakeFault::Memory) => Err(AllocError),
    }
}

/// Gives the first block of the queue back, or puts it last where it is pinned. It answers the
/// block and its length where it was given.
pub fn give_front<B: Blocks>(
    heap: &mut B,
    queue: &mut VecDeque<BlockId>,
) -> Result<Option<(BlockId, usize)>, AllocError>
    requires { LiveOnce (B.blocks heap.old) queue.old.items }
    ensures { LiveOnce (B.blocks heap.new) queue.new.items }
{
    let Some(block) = queue.pop_front() else {
        return Ok(None);
    };
    let words = heap.length(block);
    match heap.give(block) {
        Ok(()) => Ok(Some((block, words))),
        Err(_) => {
            queue.push_back(block)?;
            Ok(None)
        }
    }
}

/// The first block of the queue, which is put last.
pub fn turn_front<B: Blocks>(
    heap: &B,
    queue: &mut VecDeque<BlockId>,
) -> Result<Option<BlockId>, AllocError>
    requires { LiveOnce (B.blocks heap.now) queue.old.items }
    ensures live { IfOk result (λ o. IfSome o (λ b. IsLive (B.blocks heap.now) b)) }
    ensures queue { LiveOnce (B.blocks heap.now) queue.new.items }
{
    let Some(front) = queue.pop_front() else {
        return Ok(None);
    };
    queue.push_back(front)?;
    Ok(Some(front))
}
