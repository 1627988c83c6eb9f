//! Calls on a heap whose live blocks stand in a queue, and their answers.

ghost use Rattle.std.specs.Prelude.{◌≢◌, ℕ};
ghost use Rattle.f3_live_blocks.specs.Blocks.{IsLive};
ghost use Rattle.f3_heap_tests.specs.LiveOnce.{LiveOnce};

use crate::turns::{give_front, take_back, turn_front};
use f3_heap::{BlockId, Blocks};
use std::collections::VecDeque;
use std::process::Abort;

/// A call. Those from `Turn` on are made on the first block, which is then put last.
#[derive(Clone, Copy)]
pub(crate) enum Call {
    /// Takes a block of so many words, where less than 64 stand in the queue.
    Take(usize),
    /// Gives the first block back, which is put last where it is pinned.
    Give,
    /// Copies words of the first block, from this place on, to the start of the second.
    Copy(usize),
    Room(usize),
    Used,
    Turn,
    Length,
    Pins,
    /// Pins the block, if it is pinned less than twice.
    Pin,
    Unpin,
    Read(usize),
    Write(usize, i64),
}

/// Copies words of a block, from a place on, to the start of another.
fn copy_words<B: Blocks>(heap: &mut B, from: BlockId, to: BlockId, place: usize)
    requires from_live { IsLive (B.blocks heap.old) from }
    requires to_live { IsLive (B.blocks heap.old) to }
    requires different { from ≢ to }
    ensures { (q : ℕ) → IsLive (B.blocks heap.old) q → IsLive (B.blocks heap.new) q }
{
    let (source, target) = heap.pair(from, to);
    let source = &source[place.min(source.len())..];
    let n = source.len().min(target.len());
    target[..n].copy_from_slice(&source[..n]);
}

/// Copies words of the first block to the second, and tells whether there are two.
fn copy_answer<B: Blocks>(
    rt: &impl Abort,
    heap: &mut B,
    queue: &mut VecDeque<BlockId>,
    place: usize,
) -> i64
    requires { LiveOnce (B.blocks heap.old) queue.old.items }
    ensures { LiveOnce (B.blocks heap.new) queue.new.items }
{
    let from = turn_front(heap, queue).expect(rt, "memory");
    let to = turn_front(heap, queue).expect(rt, "memory");
    let (Some(from), Some(to)) = (from, to) else {
        return 0;
    };
    if from == to {
        return 0;
    }
    copy_words(heap, from, to, place);
    1
}

/// The answer of a block to a call, or -1 where the call may not be made.
fn answer_of<B: Blocks>(heap: &mut B, block: BlockId, call: Call) -> i64
    requires { IsLive (B.blocks heap.old) block }
    ensures { (q : ℕ) → IsLive (B.blocks heap.old) q → IsLive (B.blocks heap.new) q }
{
    match call {
        Call::Turn => 0,
        Call::Length => (heap.length(block) as u64).cast_signed(),
        Call::Pins => heap.pins(block).cast_signed(),
        Call::Pin if heap.pins(block) < 2 => {
            heap.pin(block);
            1
        }
        Call::Unpin if heap.pins(block) > 0 => {
            heap.unpin(block);
            1
        }
        Call::Read(at) if at < heap.length(block) => heap.read(block, at),
        Call::Write(at, word) if at < heap.length(block) => {
            heap.write(block, at, word);
            word
        }
        _ => -1,
    }
}

/// The answer of the first block to a call, or -1 where there is none.
fn front_answer<B: Blocks>(
    rt: &impl Abort,
    heap: &mut B,
    queue: &mut VecDeque<BlockId>,
    call: Call,
) -> i64
    requires { LiveOnce (B.blocks heap.old) queue.old.items }
    ensures { LiveOnce (B.blocks heap.new) queue.new.items }
{
    match turn_front(heap, queue).expect(rt, "memory") {
        Some(block) => answer_of(heap, block, call),
        None => -1,
    }
}

/// Takes a block, and tells whether there was room.
fn take_answer<B: Blocks>(
    rt: &impl Abort,
    heap: &mut B,
    queue: &mut VecDeque<BlockId>,
    words: usize,
) -> i64
    requires { LiveOnce (B.blocks heap.old) queue.old.items }
    ensures { LiveOnce (B.blocks heap.new) queue.new.items }
{
    if queue.len() >= 64 {
        return -1;
    }
    let taken = take_back(heap, queue, words).expect(rt, "memory");
    i64::from(taken.is_some())
}

/// The answer to a call: a number, 1 for yes and 0 for no, or -1 where the call may not be made.
pub(crate) fn answer<B: Blocks>(
    rt: &impl Abort,
    heap: &mut B,
    queue: &mut VecDeque<BlockId>,
    call: Call,
) -> i64
    requires { LiveOnce (B.blocks heap.old) queue.old.items }
    ensures { LiveOnce (B.blocks heap.new) queue.new.items }
{
    match call {
        Call::Take(words) => take_answer(rt, heap, queue, words),
        Call::Give => match give_front(heap, queue).expect(rt, "memory") {
            Some((_, length)) => (length as u64).cast_signed(),
            None => -1,
        },
        Call::Copy(place) => copy_answer(rt, heap, queue, place),
        Call::Room(words) => i64::from(heap.room(words)),
        Call::Used => (heap.used() as u64).cast_signed(),
        _ => front_answer(rt, heap, queue, call),
    }
}
