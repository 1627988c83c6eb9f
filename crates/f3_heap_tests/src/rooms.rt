//! Ten thousand calls, and the room after each.

ghost use Rattle.std.specs.Prelude.{◌<◌};
ghost use Rattle.f3_heap_tests.specs.LiveOnce.{LiveOnce};

use crate::calls::{Call, answer};
use crate::turns::{give_front, take_back};
use f3_heap::{BlockId, Blocks, RawHeap};
use std::collections::VecDeque;
use std::process::Abort;

/// Marks `n` words from the place `from` on.
fn mark(map: &mut [bool], from: usize, n: usize, value: bool) {
    for i in 0..map.len() {
        if i >= from && i - from < n {
            map[i] = value;
        }
    }
}

/// The length of the longest run of words that are not marked.
fn longest(map: &[bool]) -> usize {
    let mut best = 0;
    let mut run = 0;
    for marked in map {
        if *marked {
            run = 0;
        } else {
            run += 1;
        }
        if run > best {
            best = run;
        }
    }
    best
}

/// Marks the words of a block of this length, or takes their marks away.
fn mark_block(map: &mut [bool], block: BlockId, length: usize, value: bool)
    requires { length < 64 }
{
    mark(
        map,
        (block.word() - 1) as usize,
        (length + 6) / 4 * 4,
        value,
    );
}

/// Takes a block, whose words are marked.
fn take_marked<B: Blocks>(
    rt: &impl Abort,
    heap: &mut B,
    queue: &mut VecDeque<BlockId>,
    map: &mut [bool],
    words: usize,
)
    requires live { LiveOnce (B.blocks heap.old) queue.old.items }
    requires few { words < 64 }
    ensures { LiveOnce (B.blocks heap.new) queue.new.items }
{
    if let Some(block) = take_back(heap, queue, words).expect(rt, "memory") {
        mark_block(map, block, words, true);
    }
}

/// Gives the first block back, and takes the marks of its words away.
fn give_marked<B: Blocks>(
    rt: &impl Abort,
    heap: &mut B,
    queue: &mut VecDeque<BlockId>,
    map: &mut [bool],
)
    requires { LiveOnce (B.blocks heap.old) queue.old.items }
    ensures { LiveOnce (B.blocks heap.new) queue.new.items }
{
    if let Some((block, length)) = give_front(heap, queue).expect(rt, "memory") {
        assert!(rt; length < 64);
        mark_block(map, block, length, false);
    }
}

/// Makes the call that a number stands for.
fn call<B: Blocks>(
    rt: &impl Abort,
    heap: &mut B,
    queue: &mut VecDeque<BlockId>,
    map: &mut [bool],
    number: u32,
)
    requires { LiveOnce (B.blocks heap.old) queue.old.items }
    ensures { LiveOnce (B.blocks heap.new) queue.new.items }
{
    match number >> 24 {
        0..96 => take_marked(rt, heap, queue, map, (number >> 8 & 63) as usize),
        96..176 => give_marked(rt, heap, queue, map),
        176..216 => drop(answer(rt, heap, queue, Call::Pin)),
        _ => drop(answer(rt, heap, queue, Call::Unpin)),
    }
}

/// Whether room is what the longest gap has room for.
fn has_room<B: Blocks>(heap: &B, gap: usize) -> bool {
    for w in 0..65 {
        if heap.room(w) != ((w + 6) / 4 * 4 <= gap) {
            return false;
        }
    }
    true
}

#[test]
fn room_is_the_longest_gap(rt: HostRuntime) {
    let mut heap = RawHeap::new(rt.alloc(), 4096).expect(&rt, "memory");
    let mut queue = VecDeque::new(rt.alloc());
    let mut map = Vec::from_elem(rt.alloc(), false, 4096).expect(&rt, "memory");
    let mut number: u32 = 12345;
    for _ in 0..10000 {
        number = number.wrapping_mul(1664525).wrapping_add(1013904223);
        call(&rt, &mut heap, &mut queue, &mut map, number);
        assert!(rt; has_room(&heap, longest(&map)));
    }
    drop(map);
    drop(queue);
    drop(heap);
}
