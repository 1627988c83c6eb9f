//! Objects of known words, copied, moved and given back: a word, allocatables whose number is known at run time, and an object
//! that is all of a block.

ghost use Rattle.std.specs.Prelude.{◌≡◌, [], ◌∷◌, IfOk, IsTrue};
ghost use Rattle.f3_live_blocks.specs.Blocks.{IsLive};
ghost use Rattle.f3_desc.specs.Layout.{pieces_of};
ghost use Rattle.f3_desc.specs.declared.piece.Piece.TheVariants.{Word, Allocatable};
ghost use Rattle.f3_objects_tests.specs.Lists.{AreLists, AreReady, IsHead};

use crate::written::{block_with, has_words};
use f3_desc::{Layout, Piece};
use f3_heap::{BlockId, Blocks, PlainBlocks, RawHeap};
use f3_objects::{
    copy_contents, copy_elements, copy_tree, free_contents, free_elements, unbox_tree,
};
use std::alloc::{AllocError, Global};
use std::process::Abort;

/// An integer.
fn word(alloc: Global) -> Result<Layout, AllocError>
    ensures { IfOk result (λ l. pieces_of l ≡ Word ∷ []) }
{
    let pieces = vec![in alloc; Piece::Word]?;
    Layout::new(alloc, pieces)
}

/// An integer and an allocatable of such, of rank 1.
fn lists(alloc: Global) -> Result<Layout, AllocError>
    ensures { IfOk result (λ l. pieces_of l ≡ Word ∷ Allocatable 1 0 ∷ []) }
{
    let pieces = vec![in alloc; Piece::Word, Piece::Allocatable { rank: 1, of: 0 }]?;
    Layout::new(alloc, pieces)
}

/// Copies a word from one block to another.
fn copies_a_word<B: Blocks>(rt: &impl Abort, heap: &mut B, layout: &Layout) -> bool
    requires { pieces_of layout.now ≡ Word ∷ [] }
{
    let from = block_with(rt, heap, &[5]);
    let to = block_with(rt, heap, &[0]);
    let Ok(()) = copy_tree(heap, from, 0, to, 0, layout) else {
        return false;
    };
    has_words(heap, to, &[5])
}

/// A block of two integers, and one of two allocatables, of which the first has that block.
fn two_lists<B: Blocks>(rt: &impl Abort, heap: &mut B) -> (BlockId, BlockId)
    ensures { AreLists (B.blocks heap.new) result.0 result.1 }
{
    let numbers = block_with(rt, heap, &[40, 41]);
    let lists = block_with(rt, heap, &[numbers.word(), 1, 2, 0, 0, 0]);
    (numbers, lists)
}

/// Two such blocks, and one of as many zeros as the second has words.
fn two_lists_and_zeros<B: Blocks>(rt: &impl Abort, heap: &mut B) -> (BlockId, BlockId, BlockId)
    ensures { AreReady (B.blocks heap.new) result.0 result.1 result.2 }
{
    let (numbers, lists) = two_lists(rt, heap);
    let zeros = block_with(rt, heap, &[0, 0, 0, 0, 0, 0]);
    (numbers, lists, zeros)
}

/// Copies the two allocatables by their number.
fn copy_by_number<B: Blocks>(
    heap: &mut B,
    numbers: BlockId,
    lists: BlockId,
    copy: BlockId,
    layout: &Layout,
) -> bool
    requires layout { pieces_of layout.now ≡ Word ∷ Allocatable 1 0 ∷ [] }
    requires ready { AreReady (B.blocks heap.old) numbers lists copy }
    ensures { IsTrue result → IsHead (B.blocks heap.new) copy × IsLive (B.blocks heap.new) lists }
{
    match copy_elements(heap, lists, 0, copy, 0, layout, 2, 1) {
        Ok(()) => true,
        Err(_) => false,
    }
}

/// Copies the two allocatables as what their block holds.
fn copy_by_block<B: Blocks>(
    heap: &mut B,
    numbers: BlockId,
    lists: BlockId,
    copy: BlockId,
    layout: &Layout,
) -> bool
    requires layout { pieces_of layout.now ≡ Word ∷ Allocatable 1 0 ∷ [] }
    requires ready { AreReady (B.blocks heap.old) numbers lists copy }
    ensures { IsTrue result → IsHead (B.blocks heap.new) copy × IsLive (B.blocks heap.new) lists }
{
    match copy_contents(heap, lists, copy, layout, 1) {
        Ok(()) => true,
        Err(_) => false,
    }
}

/// Copies the two allocatables by their number, or as what their block holds.
fn copy_lists<B: Blocks>(
    heap: &mut B,
    numbers: BlockId,
    lists: BlockId,
    copy: BlockId,
    layout: &Layout,
    by_number: bool,
) -> bool
    requires layout { pieces_of layout.now ≡ Word ∷ Allocatable 1 0 ∷ [] }
    requires ready { AreReady (B.blocks heap.old) numbers lists copy }
    ensures { IsTrue result → IsHead (B.blocks heap.new) copy × IsLive (B.blocks heap.new) lists }
{
    if by_number {
        copy_by_number(heap, numbers, lists, copy, layout)
    } else {
        copy_by_block(heap, numbers, lists, copy, layout)
    }
}

/// Whether this is a copy of the two allocatables, with a block of its own.
fn is_copied<B: Blocks>(rt: &impl Abort, heap: &B, copy: BlockId, numbers: BlockId) -> bool
    requires { IsHead (B.blocks heap.now) copy }
{
    let own = BlockId::of(heap.read(copy, 0)).expect(rt, "a block beneath");
    own != numbers
        && has_words(heap, own, &[40, 41])
        && has_words(heap, copy, &[own.word(), 1, 2, 0, 0, 0])
}

/// Copies the two allocatables: 32 words are used before, and 8 more behind.
fn copies_lists<B: Blocks>(rt: &impl Abort, heap: &mut B, layout: &Layout, by_number: bool) -> bool
    requires { pieces_of layout.now ≡ Word ∷ Allocatable 1 0 ∷ [] }
{
    let (numbers, lists, copy) = two_lists_and_zeros(rt, heap);
    if heap.used() != 32 {
        return false;
    }
    if !copy_lists(heap, numbers, lists, copy, layout, by_number) {
        return false;
    }
    heap.used() == 40
        && is_copied(rt, heap, copy, numbers)
        && has_words(heap, lists, &[numbers.word(), 1, 2, 0, 0, 0])
}

/// Gives back what is beneath the two allocatables, by their number, or beneath all that their block holds.
fn free_lists<B: Blocks>(
    heap: &mut B,
    numbers: BlockId,
    lists: BlockId,
    layout: &Layout,
    by_number: bool,
) -> bool
    requires layout { pieces_of layout.now ≡ Word ∷ Allocatable 1 0 ∷ [] }
    requires lists { AreLists (B.blocks heap.old) numbers lists }
    ensures { IsLive (B.blocks heap.new) lists }
{
    if by_number {
        free_elements(heap, lists, 0, layout, 2, 1).is_ok()
    } else {
        free_contents(heap, lists, layout, 1).is_ok()
    }
}

/// Gives back what is beneath the two allocatables: 20 words are used before, and 12 behind.
fn frees_lists<B: Blocks>(rt: &impl Abort, heap: &mut B, layout: &Layout, by_number: bool) -> bool
    requires { pieces_of layout.now ≡ Word ∷ Allocatable 1 0 ∷ [] }
{
    let (numbers, lists) = two_lists(rt, heap);
    if heap.used() != 20 {
        return false;
    }
    let is_free = free_lists(heap, numbers, lists, layout, by_number);
    is_free && heap.used() == 12 && has_words(heap, lists, &[0, 1, 2, 0, 0, 0])
}

/// Moves the two allocatables between two words of another block.
fn unboxes_lists<B: Blocks>(rt: &impl Abort, heap: &mut B) -> bool {
    let (numbers, lists) = two_lists(rt, heap);
    let to = block_with(rt, heap, &[8, 0, 0, 0, 0, 0, 0, 9]);
    if heap.used() != 32 {
        return false;
    }
    let Ok(()) = unbox_tree(heap, lists, to, 1) else {
        return false;
    };
    heap.used() == 20
        && has_words(heap, to, &[8, numbers.word(), 1, 2, 0, 0, 0, 9])
        && has_words(heap, numbers, &[40, 41])
}

/// Copies no element between two blocks of one word.
fn copies_none<B: Blocks>(rt: &impl Abort, heap: &mut B, layout: &Layout) -> bool
    requires { pieces_of layout.now ≡ Word ∷ Allocatable 1 0 ∷ [] }
{
    let from = block_with(rt, heap, &[7]);
    let to = block_with(rt, heap, &[8]);
    copy_elements(heap, from, 1, to, 1, layout, 0, 1).is_ok()
        && heap.used() == 8
        && has_words(heap, to, &[8])
}

/// Copies what a block of no words holds into another.
fn copies_an_empty_block<B: Blocks>(rt: &impl Abort, heap: &mut B, layout: &Layout) -> bool
    requires { pieces_of layout.now ≡ Word ∷ Allocatable 1 0 ∷ [] }
{
    let from = block_with(rt, heap, &[]);
    let to = block_with(rt, heap, &[]);
    copy_contents(heap, from, to, layout, 1).is_ok() && heap.used() == 8
}

/// Gives back what is beneath no element.
fn frees_none<B: Blocks>(rt: &impl Abort, heap: &mut B, layout: &Layout) -> bool
    requires { pieces_of layout.now ≡ Word ∷ Allocatable 1 0 ∷ [] }
{
    let block = block_with(rt, heap, &[7]);
    free_elements(heap, block, 1, layout, 0, 1).is_ok()
        && heap.used() == 4
        && has_words(heap, block, &[7])
}

/// Gives back what is beneath a block of no words.
fn frees_an_empty_block<B: Blocks>(rt: &impl Abort, heap: &mut B, layout: &Layout) -> bool
    requires { pieces_of layout.now ≡ Word ∷ Allocatable 1 0 ∷ [] }
{
    let block = block_with(rt, heap, &[]);
    free_contents(heap, block, layout, 1).is_ok() && heap.used() == 4
}

/// Moves nothing out of a block of no words, which is given back.
fn unboxes_an_empty_block<B: Blocks>(rt: &impl Abort, heap: &mut B) -> bool {
    let block = block_with(rt, heap, &[]);
    let to = block_with(rt, heap, &[8]);
    unbox_tree(heap, block, to, 1).is_ok() && heap.used() == 4 && has_words(heap, to, &[8])
}

/// Whether the case of this number goes well in a heap without blocks.
fn goes_well<B: Blocks>(rt: &impl Abort, heap: &mut B, layout: &Layout, number: u32) -> bool
    requires { pieces_of layout.now ≡ Word ∷ Allocatable 1 0 ∷ [] }
{
    match number {
        0 => copies_lists(rt, heap, layout, true),
        1 => copies_lists(rt, heap, layout, false),
        2 => frees_lists(rt, heap, layout, true),
        3 => frees_lists(rt, heap, layout, false),
        4 => unboxes_lists(rt, heap),
        5 => copies_none(rt, heap, layout),
        6 => copies_an_empty_block(rt, heap, layout),
        7 => frees_none(rt, heap, layout),
        8 => frees_an_empty_block(rt, heap, layout),
        _ => unboxes_an_empty_block(rt, heap),
    }
}

#[test]
fn objects_by_the_account_alone(rt: HostRuntime) {
    let layout = lists(rt.alloc()).expect(&rt, "memory");
    for number in 0..10 {
        let mut heap = PlainBlocks::new(rt.alloc(), 64);
        let is_well = goes_well(&rt, &mut heap, &layout, number);
        drop(heap);
        assert!(rt; is_well, "case {number}");
    }
    drop(layout);
}

#[test]
fn objects_in_a_region(rt: HostRuntime) {
    let layout = lists(rt.alloc()).expect(&rt, "memory");
    for number in 0..10 {
        let mut heap = RawHeap::new(rt.alloc(), 64).expect(&rt, "memory");
        let is_well = goes_well(&rt, &mut heap, &layout, number);
        drop(heap);
        assert!(rt; is_well, "case {number}");
    }
    drop(layout);
}

#[test]
fn a_word(rt: HostRuntime) {
    let layout = word(rt.alloc()).expect(&rt, "memory");
    let mut plain = PlainBlocks::new(rt.alloc(), 16);
    assert!(rt; copies_a_word(&rt, &mut plain, &layout));
    drop(plain);
    let mut raw = RawHeap::new(rt.alloc(), 16).expect(&rt, "memory");
    assert!(rt; copies_a_word(&rt, &mut raw, &layout));
    drop(raw);
    drop(layout);
}
