//! Takes and gives blocks, and reads and writes words, so often as the arguments say: loads to
//! measure from outside.
#![tactic(auto)]

mod load;

use crate::load::{exchange, frames, holes, pairs, touches};
use anyhow::{Context, Result, bail};
use f3_heap::RawHeap;
use std::alloc::Global;
use std::env;

const USAGE: &str =
    "usage: f3_heap_speed PAIRS TOUCHES | exchange LIVE WIDEST TAKES | frames HOLES CALLS";

/// The words of the heaps that are exchanged in and that frames stand in.
const LARGE: usize = 1 << 22;

fn main(rt: HostRuntime) -> Result<()> {
    let alloc = rt.alloc();
    let words: Vec<String> = env::args(&rt)?.collect(alloc)?;
    match words.len() {
        3 => pairs_and_touches(&rt, alloc, &words[1], &words[2]),
        4 => frames_above_holes(&rt, alloc, &words[2], &words[3]),
        5 => exchanges(&rt, alloc, &words[2], &words[3], &words[4]),
        _ => bail!("{USAGE}"),
    }
}

fn pairs_and_touches(
    rt: &HostRuntime,
    alloc: Global,
    pairs_word: &str,
    touches_word: &str,
) -> Result<()> {
    let pair_count = pairs_word.parse::<u64>().context("PAIRS")?;
    let touch_count = touches_word.parse::<u64>().context("TOUCHES")?;
    let mut heap = RawHeap::new(alloc, 1 << 18)?;
    let done = pairs(alloc, &mut heap, pair_count)?;
    println!(rt; "{done} pairs")?;
    let mut heap = RawHeap::new(alloc, 1 << 10)?;
    let sum = touches(&mut heap, 1000, touch_count);
    println!(rt; "{sum} words read and written")?;
    Ok(())
}

fn exchanges(rt: &HostRuntime, alloc: Global, live: &str, widest: &str, takes: &str) -> Result<()> {
    let live = live.parse::<usize>().context("LIVE")?;
    let widest = widest.parse::<u32>().context("WIDEST")?;
    let takes = takes.parse::<u64>().context("TAKES")?;
    let mut heap = RawHeap::new(alloc, LARGE)?;
    let done = exchange(alloc, &mut heap, live, widest, takes)?;
    println!(rt; "{done} pairs")?;
    Ok(())
}

fn frames_above_holes(
    rt: &HostRuntime,
    alloc: Global,
    holes_word: &str,
    calls: &str,
) -> Result<()> {
    let hole_count = holes_word.parse::<u64>().context("HOLES")?;
    let calls = calls.parse::<u64>().context("CALLS")?;
    let mut heap = RawHeap::new(alloc, LARGE)?;
    holes(alloc, &mut heap, hole_count)?;
    let made = frames(&mut heap, calls);
    println!(rt; "{made} calls")?;
    Ok(())
}
