//! Random objects in both heaps, and in heaps that refuse once.
#![tactic(auto)]

use crate::dice::Dice;
use crate::rounds::round;
use crate::towers::tower;
use f3_desc::{Layout, Piece};
use f3_heap::{FullAt, PlainBlocks, RawHeap};
use f3_objects::TreeFault;
use std::alloc::Global;
use std::process::Abort;

/// An integer, an array of objects of an integer and an allocatable of integers, and an
/// allocatable array of such objects.
fn nested(rt: &impl Abort, alloc: Global) -> Layout {
    let leaf = vec![in alloc; 0, 1].expect(rt, "memory");
    let whole = vec![in alloc; 0, 3, 4, 5].expect(rt, "memory");
    let pieces = vec![in alloc;
        Piece::Word,
        Piece::Allocatable { rank: 1, of: 0 },
        Piece::Record(leaf),
        Piece::Array { count: 3, of: 2 },
        Piece::Allocatable { rank: 1, of: 2 },
        Piece::Allocatable { rank: 0, of: 3 },
        Piece::Record(whole),
    ]
    .expect(rt, "memory");
    Layout::new(alloc, pieces).expect(rt, "memory")
}

#[test]
fn both_heaps_agree(rt: HostRuntime) {
    let layout = nested(&rt, rt.alloc());
    assert_eq!(rt; layout.words(), 17);
    for seed in 0..40 {
        let mut raw = RawHeap::new(rt.alloc(), 4096).expect(&rt, "memory");
        let mut plain = PlainBlocks::new(rt.alloc(), 4096);
        let one = round(&rt, &mut raw, &layout, &mut Dice::new(seed));
        let other = round(&rt, &mut plain, &layout, &mut Dice::new(seed));
        assert!(rt; matches!(one, Some(Ok(_))));
        assert_eq!(rt; one, other);
    }
}

/// What a round gives in a heap whose take number `at` is refused.
fn refused_round(
    rt: &impl Abort,
    alloc: Global,
    layout: &Layout,
    seed: u32,
    at: u64,
) -> Option<Result<usize, TreeFault>> {
    let raw = RawHeap::new(alloc, 4096).expect(rt, "memory");
    let mut heap = FullAt::new(raw, at);
    let mut dice = Dice::new(seed);
    let came = round(rt, &mut heap, layout, &mut dice);
    drop(heap);
    came
}

/// What a round must give where take number `at` is refused, if take number `own` is that of the
/// copy's own block, and `ample` is what it gives where none is refused. The first take is that of the
/// object's own block, and beneath it there are `own - 2` more, as beneath the copy.
fn is_due(
    came: Option<Result<usize, TreeFault>>,
    own: u64,
    at: u64,
    ample: Option<Result<usize, TreeFault>>,
) -> bool {
    if at.saturating_add(1) < own.saturating_mul(2) {
        came == Some(Err(TreeFault::Full))
    } else {
        came == ample
    }
}

#[test]
fn each_take_refused_in_turn(rt: HostRuntime) {
    let layout = nested(&rt, rt.alloc());
    for seed in 0..8 {
        let ample = refused_round(&rt, rt.alloc(), &layout, seed, 0);
        assert!(rt; matches!(ample, Some(Ok(_))));
        assert!(rt; refused_round(&rt, rt.alloc(), &layout, seed, 1).is_none());
        let mut own = 0;
        for at in 2..81 {
            let came = refused_round(&rt, rt.alloc(), &layout, seed, at);
            if own > 0 {
                assert!(rt; is_due(came, own, at, ample));
            } else if came.is_none() {
                own = at;
            } else {
                assert!(rt; matches!(came, Some(Ok(_))));
            }
        }
        assert!(rt; own > 0);
        assert_eq!(rt; refused_round(&rt, rt.alloc(), &layout, seed, 80), ample);
    }
}

/// A thousand types, each with a component of the type before.
#[test]
fn a_tall_type(rt: HostRuntime) {
    let layout = tower(rt.alloc(), 1000).expect(&rt, "memory");
    assert_eq!(rt; layout.words(), 1);
    for seed in 0..4 {
        let mut heap = RawHeap::new(rt.alloc(), 64).expect(&rt, "memory");
        let came = round(&rt, &mut heap, &layout, &mut Dice::new(seed));
        assert!(rt; matches!(came, Some(Ok(_))));
    }
}
