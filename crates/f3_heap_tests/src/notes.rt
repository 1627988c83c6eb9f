//! The answers of both heaps to a long list of calls, written down.

ghost use Rattle.f3_live_blocks.specs.Blocks.{IsLive};
ghost use Rattle.f3_heap_tests.specs.LiveOnce.{LiveOnce};

use crate::calls::{Call, answer};
use crate::turns::turn_front;
use f3_heap::{BlockId, Blocks, PlainBlocks, RawHeap};
use std::alloc::{AllocError, Global};
use std::collections::VecDeque;
use std::process::Abort;

/// Writes the length, the pins and the words of a block down.
fn note_block<B: Blocks>(heap: &B, block: BlockId, notes: &mut Vec<i64>) -> Result<(), AllocError>
    requires { IsLive (B.blocks heap.now) block }
{
    let length = heap.length(block);
    notes.push((length as u64).cast_signed())?;
    notes.push(heap.pins(block).cast_signed())?;
    for at in 0..length {
        notes.push(heap.read(block, at))?;
    }
    Ok(())
}

/// Writes down what is used, whether there is room, and what the first block holds.
fn note_front<B: Blocks>(
    heap: &B,
    queue: &mut VecDeque<BlockId>,
    words: usize,
    notes: &mut Vec<i64>,
) -> Result<(), AllocError>
    requires { LiveOnce (B.blocks heap.now) queue.old.items }
    ensures { LiveOnce (B.blocks heap.now) queue.new.items }
{
    notes.push((heap.used() as u64).cast_signed())?;
    notes.push(i64::from(heap.room(words)))?;
    if let Some(block) = turn_front(heap, queue)? {
        note_block(heap, block, notes)?;
    }
    Ok(())
}

/// The call that a number stands for.
fn call_of(number: u32) -> Call {
    let words = (number >> 8 & 63) as usize;
    match number >> 28 {
        0..5 => Call::Take(words),
        5..9 => Call::Give,
        9 => Call::Take(16384),
        10 => Call::Pin,
        11 | 12 => Call::Unpin,
        13 => Call::Copy(0),
        _ => Call::Write(words, i64::from(number)),
    }
}

/// The answers to 10,000 calls, with what the heap tells after each.
fn answers<B: Blocks>(rt: &impl Abort, alloc: Global, heap: &mut B) -> Vec<i64> {
    let mut queue = VecDeque::new(alloc);
    let mut notes = Vec::new(alloc);
    let mut number: u32 = 12345;
    for _ in 0..10000 {
        number = number.wrapping_mul(1664525).wrapping_add(1013904223);
        let answer = answer(rt, heap, &mut queue, call_of(number));
        notes.push(answer).expect(rt, "memory");
        note_front(heap, &mut queue, (number & 127) as usize, &mut notes).expect(rt, "memory");
    }
    drop(queue);
    notes
}

// At most 64 blocks of at most 68 words each live in 16,384 words, so one of the at most 65 gaps has
// 132 words, the most that is asked for below the whole: both heaps owe the same answers.
#[test]
fn both_heaps_answer_alike(rt: HostRuntime) {
    let mut plain = PlainBlocks::new(rt.alloc(), 16384);
    let expected = answers(&rt, rt.alloc(), &mut plain);
    drop(plain);
    let mut raw = RawHeap::new(rt.alloc(), 16384).expect(&rt, "memory");
    let found = answers(&rt, rt.alloc(), &mut raw);
    drop(raw);
    assert!(rt; expected.len() > 100000);
    assert!(rt; found == expected);
}
