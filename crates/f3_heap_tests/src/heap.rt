//! The worked heaps, and each call that can answer `Memory` with ample memory.
//!
//! The calls on a heap stand in a text: in each line a call, and behind `-> ` its answer. Behind
//! `write AT -> ` stands the word that is written.

use crate::calls::{Call, answer};
use f3_heap::{BlockId, Blocks, FullAt, PlainBlocks, RawHeap};
use std::alloc::Global;
use std::collections::VecDeque;
use std::process::Abort;

/// The call of this name.
fn call_named(rt: &impl Abort, name: &str, number: usize, word: i64) -> Call {
    match name {
        "take" => Call::Take(number),
        "give" => Call::Give,
        "copy" => Call::Copy(number),
        "room" => Call::Room(number),
        "used" => Call::Used,
        "turn" => Call::Turn,
        "length" => Call::Length,
        "pins" => Call::Pins,
        "pin" => Call::Pin,
        "unpin" => Call::Unpin,
        "read" => Call::Read(number),
        "write" => Call::Write(number, word),
        _ => panic!(rt; "no call: {name}"),
    }
}

/// The call of a line, and the answer that is wanted.
fn call_in(rt: &impl Abort, line: &str) -> (Call, i64) {
    let (call, wanted) = line.split_once(" -> ").expect(rt, "an arrow");
    let (name, number) = call.split_once(" ").unwrap_or((call, "0"));
    let number = number.parse::<usize>().ok().expect(rt, "a number");
    let wanted = wanted.parse::<i64>().ok().expect(rt, "an answer");
    (call_named(rt, name, number, wanted), wanted)
}

/// Makes the calls of a text on a heap without blocks, and compares their answers.
fn follow<B: Blocks>(rt: &impl Abort, alloc: Global, heap: &mut B, text: &str) {
    let mut queue = VecDeque::new(alloc);
    for line in text.lines() {
        let (call, wanted) = call_in(rt, line);
        let came = answer(rt, heap, &mut queue, call);
        assert!(rt; came == wanted, "{line}: {came}");
    }
    drop(queue);
}

/// Makes the calls of a text on a heap by its account alone.
fn follow_by_account(rt: &impl Abort, alloc: Global, words: usize, text: &str) {
    let mut heap = PlainBlocks::new(alloc, words);
    follow(rt, alloc, &mut heap, text);
    drop(heap);
}

/// Makes the calls of a text on a heap in a region.
fn follow_in_region(rt: &impl Abort, alloc: Global, words: usize, text: &str) {
    let mut heap = RawHeap::new(alloc, words).expect(rt, "memory");
    follow(rt, alloc, &mut heap, text);
    drop(heap);
}

/// Makes the calls of a text on a heap that refuses one take.
fn follow_full_at(rt: &impl Abort, alloc: Global, at: u64, text: &str) {
    let mut heap = FullAt::new(PlainBlocks::new(alloc, 64), at);
    follow(rt, alloc, &mut heap, text);
    drop(heap);
}

const ONE_BLOCK: &str = "\
take 1 -> 1
length -> 1
read 0 -> 0
used -> 4
room 9 -> 1
room 10 -> 0
take 10 -> 0
used -> 4
length -> 1
pins -> 0
pin -> 1
pins -> 1
give -> -1
unpin -> 1
pins -> 0
give -> 1
used -> 0
room 13 -> 1";

#[test]
fn one_block_in_sixteen_words(rt: HostRuntime) {
    follow_by_account(&rt, rt.alloc(), 16, ONE_BLOCK);
    follow_in_region(&rt, rt.alloc(), 16, ONE_BLOCK);
}

// Each call on a block is made on the first of the two, which is then the second.
const TWO_BLOCKS: &str = "\
take 2 -> 1
take 2 -> 1
length -> 2
length -> 2
write 1 -> -7
turn -> 0
read 1 -> -7
turn -> 0
copy 1 -> 1
read 0 -> 0
read 0 -> -7
turn -> 0
read 1 -> 0";

#[test]
fn copies_a_word(rt: HostRuntime) {
    follow_by_account(&rt, rt.alloc(), 16, TWO_BLOCKS);
    follow_in_region(&rt, rt.alloc(), 16, TWO_BLOCKS);
}

// Of four blocks of a word, the first and the third are given back, and then the second.
const BY_ACCOUNT: &str = "\
take 1 -> 1
take 1 -> 1
take 1 -> 1
take 1 -> 1
used -> 16
give -> 1
turn -> 0
give -> 1
turn -> 0
room 5 -> 1
room 6 -> 1
give -> 1
room 6 -> 1
take 6 -> 1
used -> 16";

#[test]
fn four_blocks_by_the_account_alone(rt: HostRuntime) {
    follow_by_account(&rt, rt.alloc(), 24, BY_ACCOUNT);
}

// Once the second is given back too, a wider block stands between, and then the fourth is given.
const IN_REGION: &str = "\
take 1 -> 1
take 1 -> 1
take 1 -> 1
take 1 -> 1
used -> 16
give -> 1
turn -> 0
give -> 1
turn -> 0
room 5 -> 1
room 6 -> 0
give -> 1
room 6 -> 1
take 6 -> 1
used -> 16
room 9 -> 0
room 5 -> 1
give -> 1
room 9 -> 1";

#[test]
fn four_blocks_in_a_region(rt: HostRuntime) {
    follow_in_region(&rt, rt.alloc(), 24, IN_REGION);
}

const SECOND_REFUSED: &str = "\
room 1 -> 1
take 1 -> 1
room 0 -> 0
take 1 -> 0
used -> 4
room 1 -> 1
take 1 -> 1";

const NONE_REFUSED: &str = "\
take 1 -> 1
take 1 -> 1";

#[test]
fn refuses_the_second_take(rt: HostRuntime) {
    follow_full_at(&rt, rt.alloc(), 2, SECOND_REFUSED);
    follow_full_at(&rt, rt.alloc(), 0, NONE_REFUSED);
}

const LARGEST: &str = "\
take 134217725 -> 1
length -> 134217725
read 0 -> 0
room 0 -> 0
give -> 134217725
room 134217725 -> 1
used -> 0
room 134217726 -> 0";

#[test]
fn the_largest_heap(rt: HostRuntime) {
    follow_in_region(&rt, rt.alloc(), 134217728, LARGEST);
}

#[test]
fn words_name_blocks(rt: HostRuntime) {
    let is_seven = match BlockId::of(7) {
        Some(block) => block.word() == 7,
        None => false,
    };
    assert!(rt; is_seven && BlockId::of(0).is_none() && BlockId::of(-1).is_none());
}
