//! One object through all calls.

use crate::dice::Dice;
use crate::object::{blank_object, free_object, random_object};
use f3_desc::Layout;
use f3_heap::Blocks;
use f3_objects::{TreeFault, copy_tree};
use std::process::Abort;

/// Whether the counts of words are due: the copy takes as many as its source, or none where it failed.
fn are_due(is_copied: bool, before: usize, single: usize, held: usize, double: usize) -> bool {
    if is_copied {
        before <= single && single <= double && double - single == single - before
    } else {
        double == held
    }
}

/// Makes a random object, copies it, and gives both back. It answers the words that were in use
/// while both stood, or the fault of the copy, or `None` where the heap had no room for the block of
/// the object or of its copy. The account is then what it was.
pub fn round<B: Blocks>(
    rt: &impl Abort,
    heap: &mut B,
    layout: &Layout,
    dice: &mut Dice,
) -> Option<Result<usize, TreeFault>> {
    let before = heap.used();
    let source = random_object(heap, layout, dice)?;
    let single = heap.used();
    let Some(target) = blank_object(heap, layout) else {
        let is_same = heap.used() == single;
        let is_source_free = free_object(heap, layout, source);
        assert!(rt; is_same && is_source_free && heap.used() == before);
        return None;
    };
    let held = heap.used();
    let copied = copy_tree(heap, source, 0, target, 0, layout);
    let double = heap.used();
    let is_target_free = free_object(heap, layout, target);
    let left = heap.used();
    let is_free = free_object(heap, layout, source);
    let is_same = left == single && heap.used() == before;
    let is_due = are_due(copied.is_ok(), before, single, held, double);
    assert!(rt; is_target_free && is_free && is_same && is_due);
    Some(copied.map(|()| double))
}
