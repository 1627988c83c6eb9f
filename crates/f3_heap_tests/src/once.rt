//! Blocks that a heap takes and takes back at once.

ghost use Rattle.std.specs.Prelude.{◌<◌};

use f3_heap::{Blocks, RawHeap};

/// Takes a block, writes its word 4, and gives it back at once, and tells whether all this was done.
#[tactic(auto, using(f3_live_blocks::proofs::Laws::live_laws))]
fn has_used<B: Blocks>(heap: &mut B, words: usize) -> bool
    requires { 4 < words }
{
    let Ok(block) = heap.take(words) else {
        return false;
    };
    heap.write(block, 4, -7);
    heap.give_at_once(block)
}

/// Takes a block at once, and shows its length, its word 4 and how many words are used.
#[tactic(auto, using(f3_live_blocks::proofs::Laws::live_laws))]
fn shown<B: Blocks>(heap: &mut B, words: usize) -> Option<(usize, i64, usize)>
    requires { 4 < words }
{
    match heap.take_at_once(words) {
        Some(block) => Some((heap.length(block), heap.read(block, 4), heap.used())),
        None => None,
    }
}

/// Takes a block, pins it, and asks for it at once, which is refused; tells whether the pin is still there.
#[tactic(auto, using(f3_live_blocks::proofs::Laws::live_laws))]
fn stays_pinned<B: Blocks>(heap: &mut B) -> bool {
    let Ok(block) = heap.take(1) else {
        return false;
    };
    heap.pin(block);
    if heap.give_at_once(block) {
        return false;
    }
    heap.pins(block) == 1
}

/// A small block behind all others is taken at once where its words were written before, and shows none of them.
#[test]
fn a_frame_is_taken_at_once(rt: HostRuntime) {
    let mut heap = RawHeap::new(rt.alloc(), 64).expect(&rt, "memory");
    assert!(rt; shown(&mut heap, 5).is_none(), "no word was written");
    assert!(rt; has_used(&mut heap, 5), "the last block");
    assert!(rt; shown(&mut heap, 5) == Some((5, 0, 8)), "a new block");
    assert!(rt;
        shown(&mut heap, 5).is_none(),
        "no word behind it was written"
    );
    assert!(rt;
        stays_pinned(&mut heap) && heap.used() == 12,
        "a pinned block"
    );
    drop(heap);
}
