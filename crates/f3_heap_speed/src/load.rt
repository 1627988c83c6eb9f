//! What is measured.
#![tactic(auto, using(f3_live_blocks::proofs::Laws::live_laws))]

ghost use Rattle.std.specs.Prelude.{◌≡◌, ◌<◌, length};
ghost use Rattle.f3_live_blocks.specs.Blocks.{IsLive, words_of};
ghost use Rattle.f3_heap_tests.specs.LiveOnce.{LiveOnce};

use f3_heap::{BlockId, Blocks};
use f3_heap_tests::{give_front, take_back, turn_front};
use std::alloc::{AllocError, Global};
use std::collections::VecDeque;

/// Puts the first block of the queue last, where the number is odd.
fn turn<B: Blocks>(heap: &B, queue: &mut VecDeque<BlockId>, number: u32) -> Result<(), AllocError>
    requires { LiveOnce (B.blocks heap.now) queue.old.items }
    ensures { LiveOnce (B.blocks heap.now) queue.new.items }
{
    if number % 2 == 0 {
        return Ok(());
    }
    turn_front(heap, queue)?;
    Ok(())
}

/// Takes so many blocks of 0 to 127 words, and gives one back before each while 1,000 are live.
/// It answers how many it took before the heap was full.
pub(crate) fn pairs<B: Blocks>(alloc: Global, heap: &mut B, count: u64) -> Result<u64, AllocError> {
    exchange(alloc, heap, 1000, 127, count)
}

/// Takes so many blocks of 0 to `widest` words, and gives one back before each while `live` are
/// live. `widest` is 1 less than a power of two, up to 255. It answers how many it took before the
/// heap was full.
pub(crate) fn exchange<B: Blocks>(
    alloc: Global,
    heap: &mut B,
    live: usize,
    widest: u32,
    count: u64,
) -> Result<u64, AllocError> {
    let mut queue = VecDeque::new(alloc);
    let mut number: u32 = 12345;
    for taken in 0..count {
        number = number.wrapping_mul(1664525).wrapping_add(1013904223);
        if queue.len() >= live {
            turn(heap, &mut queue, number >> 20)?;
            turn(heap, &mut queue, number >> 21)?;
            give_front(heap, &mut queue)?;
        }
        let words = (number >> 24 & widest) as usize;
        if take_back(heap, &mut queue, words)?.is_none() {
            return Ok(taken);
        }
    }
    Ok(count)
}

/// Takes so many blocks of a word.
fn take_ones<B: Blocks>(
    heap: &mut B,
    queue: &mut VecDeque<BlockId>,
    count: u64,
) -> Result<(), AllocError>
    requires { LiveOnce (B.blocks heap.old) queue.old.items }
    ensures { LiveOnce (B.blocks heap.new) queue.new.items }
{
    for _ in 0..count {
        take_back(heap, queue, 1)?;
    }
    Ok(())
}

/// Takes two blocks of a word for each hole, and gives one of the two back.
pub(crate) fn holes<B: Blocks>(alloc: Global, heap: &mut B, count: u64) -> Result<(), AllocError> {
    let mut queue = VecDeque::new(alloc);
    take_ones(heap, &mut queue, count)?;
    take_ones(heap, &mut queue, count)?;
    for _ in 0..count {
        give_front(heap, &mut queue)?;
        turn_front(heap, &mut queue)?;
    }
    Ok(())
}

/// The blocks of a procedure's call that makes one call: one of 20 words, and above it one of 7.
fn call<B: Blocks>(heap: &mut B) -> bool {
    let Ok(outer) = heap.take(20) else {
        return false;
    };
    let Ok(inner) = heap.take(7) else {
        return false;
    };
    heap.give(inner).is_ok() && heap.give(outer).is_ok()
}

/// Makes so many calls. It answers how many of them the heap had room for.
pub(crate) fn frames<B: Blocks>(heap: &mut B, count: u64) -> u64 {
    let mut made: u64 = 0;
    for _ in 0..count {
        if call(heap) {
            made = made.wrapping_add(1);
        }
    }
    made
}

/// Adds 1 to words of a block of so many, as often as is said, and answers the sum of its words.
pub(crate) fn touches<B: Blocks>(heap: &mut B, size: usize, count: u64) -> i64
    requires { 7 < size }
{
    let Ok(block) = heap.take(size) else {
        return 0;
    };
    add_ones(heap, block, size, count);
    sum(heap, block, size)
}

fn add_ones<B: Blocks>(heap: &mut B, block: BlockId, size: usize, count: u64)
    requires live { IsLive (B.blocks heap.old) block }
    requires long { (size ≡ length (words_of (B.blocks heap.old) block)) × (7 < size) }
    ensures live { IsLive (B.blocks heap.new) block }
    ensures long { size ≡ length (words_of (B.blocks heap.new) block) }
{
    let mut at = 0;
    for _ in 0..count {
        let word = heap.read(block, at);
        heap.write(block, at, word.wrapping_add(1));
        let rest = size - at;
        at = if rest > 7 { at + 7 } else { 7 - rest };
    }
}

fn sum<B: Blocks>(heap: &B, block: BlockId, size: usize) -> i64
    requires live { IsLive (B.blocks heap.now) block }
    requires long { size ≡ length (words_of (B.blocks heap.now) block) }
{
    let mut sum: i64 = 0;
    for at in 0..size {
        sum = sum.wrapping_add(heap.read(block, at));
    }
    sum
}
