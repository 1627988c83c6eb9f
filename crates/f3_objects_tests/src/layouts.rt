//! Words of layouts, counted by hand.
#![tactic(auto)]

use f3_desc::{Layout, Piece};

#[test]
fn one_word(rt: HostRuntime) {
    let pieces = vec![in rt.alloc(); Piece::Word].expect(&rt, "memory");
    let layout = Layout::new(rt.alloc(), pieces).expect(&rt, "memory");
    let is_well = layout.words() == 1 && layout.last() == 0 && !layout.holds_allocatable(0);
    drop(layout);
    assert!(rt; is_well);
}

/// An integer and an allocatable of rank 2, three times over.
#[test]
fn three_records(rt: HostRuntime) {
    let parts = vec![in rt.alloc(); 0, 1].expect(&rt, "memory");
    let pieces = vec![in rt.alloc();
        Piece::Word,
        Piece::Allocatable { rank: 2, of: 0 },
        Piece::Record(parts),
        Piece::Array { count: 3, of: 2 },
    ]
    .expect(&rt, "memory");
    let layout = Layout::new(rt.alloc(), pieces).expect(&rt, "memory");
    let is_wide = layout.words() == 18 && layout.words_of(1) == 5 && layout.words_of(2) == 6;
    let holds = layout.holds_allocatable(3);
    drop(layout);
    assert!(rt; is_wide && holds);
}
