ghost use Rattle.std.specs.Prelude.{◌≡◌, length};
ghost use Rattle.f3_raw.specs.Region.{region_words, region_size};

use f3_raw::Region;
use std::alloc::Global;
use std::process::Abort;

// A region of 16 words with 1 to 8 below its frontier.
fn eight(rt: &impl Abort, alloc: Global) -> Region
    ensures { (region_size result ≡ 16) × (length (region_words result) ≡ 8) }
{
    let mut region = Region::new(alloc, 16).expect(rt, "memory");
    region.clear(0, 8);
    let (_, words) = region.pair(0, 0, 0, 8);
    words.copy_from_slice(&[1, 2, 3, 4, 5, 6, 7, 8]);
    region
}

// The words below the frontier, and no more, are these.
fn holds(region: &Region, words: &[i64]) -> bool {
    if region.frontier() != words.len() {
        return false;
    }
    for (at, word) in words.iter().enumerate() {
        if region.get(at) != *word {
            return false;
        }
    }
    true
}

// The region has this size, and no word.
fn has_size(region: &Region, words: usize) -> bool {
    region.words() == words && region.frontier() == 0
}

#[test]
fn a_new_region_has_its_size_and_no_word(rt: HostRuntime) {
    let region = Region::new(rt.alloc(), 64).expect(&rt, "memory");
    assert!(rt; has_size(&region, 64));
    drop(region);
}

#[test]
fn a_size_that_no_allocation_can_have_is_refused(rt: HostRuntime) {
    assert!(rt; Region::new(rt.alloc(), usize::MAX).is_err());
    assert!(rt; Region::new(rt.alloc(), isize::MAX as usize / 8 + 1).is_err());
}

#[test]
fn a_region_of_no_word_takes_every_call(rt: HostRuntime) {
    let mut region = Region::new(rt.alloc(), 0).expect(&rt, "memory");
    region.clear(0, 0);
    region.copy(0, 0, 0);
    let (from, to) = region.pair(0, 0, 0, 0);
    assert!(rt; from.is_empty() && to.is_empty());
    assert!(rt; has_size(&region, 0));
    drop(region);
}

#[test]
fn words_are_put_and_read(rt: HostRuntime) {
    let mut region = eight(&rt, rt.alloc());
    region.set(8, i64::MIN);
    region.set(0, -1);
    region.put(7, i64::MAX);
    assert!(rt; holds(&region, &[-1, 2, 3, 4, 5, 6, 7, i64::MAX, i64::MIN]));
    drop(region);
}

#[test]
fn zeros_go_over_words_and_above_the_frontier(rt: HostRuntime) {
    let mut region = eight(&rt, rt.alloc());
    region.clear(1, 2);
    region.clear(6, 4);
    assert!(rt; holds(&region, &[1, 0, 0, 4, 5, 6, 0, 0, 0, 0]));
    drop(region);
}

#[test]
fn a_copy_up_gives_the_old_words_of_its_source(rt: HostRuntime) {
    let mut up = eight(&rt, rt.alloc());
    up.copy(0, 3, 5);
    assert!(rt; holds(&up, &[1, 2, 3, 1, 2, 3, 4, 5]));
    drop(up);
}

#[test]
fn a_copy_down_gives_the_old_words_of_its_source(rt: HostRuntime) {
    let mut down = eight(&rt, rt.alloc());
    down.copy(3, 0, 5);
    assert!(rt; holds(&down, &[4, 5, 6, 7, 8, 6, 7, 8]));
    drop(down);
}

#[test]
fn a_copy_goes_above_the_frontier(rt: HostRuntime) {
    let mut above = eight(&rt, rt.alloc());
    above.copy(2, 6, 6);
    assert!(rt; holds(&above, &[1, 2, 3, 4, 5, 6, 3, 4, 5, 6, 7, 8]));
    drop(above);
}

#[test]
fn what_is_written_through_a_pair_stands(rt: HostRuntime) {
    let mut region = eight(&rt, rt.alloc());
    let (from, to) = region.pair(0, 2, 5, 2);
    to.copy_from_slice(from);
    let (from, to) = region.pair(6, 2, 2, 2);
    to.copy_from_slice(from);
    assert!(rt; holds(&region, &[1, 2, 2, 8, 5, 1, 2, 8]));
    drop(region);
}

// Two hundred terabytes in all, more than a process has addresses for.
#[test]
fn a_region_gives_its_memory_back(rt: HostRuntime) {
    for _ in 0..200000 {
        let mut region = Region::new(rt.alloc(), 134217728).expect(&rt, "memory");
        region.clear(0, 512);
        assert!(rt; region.frontier() == 512);
        drop(region);
    }
}
