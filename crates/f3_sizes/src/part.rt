//! How many cells stand at the lines of a procedure, of a routine or of the main program.

ghost use Rattle.std.specs.Prelude.{◌≡◌, ◌≤◌, ◌<◌, ◌+◌, ◌*◌, ◌≢◌, ℕ, IfNone, IfOk, IfSome, IsTrue, length, replicate, slice_get};
ghost use Rattle.std.specs.Bool.{OnFalse};
ghost use Rattle.f3_heights.specs.Effect.{effect};
ghost use Rattle.f3_sizes.specs.Effect.{effect_in};
ghost use Rattle.f3_sizes.specs.Part.{ArePart, AreNoted, Grows, IsBegun, IsClosed, IsDepth, IsGreatest, IsNoted, IsReady, IsSameUpTo, Onward, unnoted};

use crate::effect::{Effect, effect_of};
use f3_code::instruction::Instruction;
use f3_gen_values::line::Line;
use std::alloc::{AllocError, Global};

/// Notes how many cells stand at a line, and tells whether nothing was noted of it before.
fn note(heights: &mut [Option<usize>], at: usize, cells: usize) -> bool
    requires { at < length heights.old }
    ensures noted { (height : ℕ → ℕ) → AreNoted height heights.old → cells ≡ height at → cells + 2 * unnoted heights.old ≤ 2 * length heights.old + 2 → AreNoted height heights.new }
    ensures grows { Grows heights.old heights.new }
    ensures there { IsNoted heights.new at }
    ensures others { (k : ℕ) → k ≢ at → slice_get heights.new k ≡ slice_get heights.old k }
    ensures fewer { IsTrue result → unnoted heights.new < unnoted heights.old }
    ensures known { OnFalse result (heights.new ≡ heights.old) }
{
    if heights[at].is_some() {
        return false;
    }
    heights[at] = Some(cells);
    true
}

/// Notes how many cells stand where an instruction leads from a line with so many cells.
fn note_ways(heights: &mut [Option<usize>], at: usize, cells: usize, act: Instruction)
    requires { (height : ℕ → ℕ) × IsReady height heights.old at cells (effect act) }
    ensures noted { (height : ℕ → ℕ) → IsReady height heights.old at cells (effect act) → AreNoted height heights.new }
    ensures grows { Grows heights.old heights.new }
    ensures before { IsSameUpTo at heights.old heights.new }
    ensures onward { Onward (IsNoted heights.new) at (effect act) }
{
    let Effect { takes, next, far } = effect_of(act);
    let rest = cells - takes;
    if let Some(left) = next {
        note(heights, at + 1, left + rest);
    }
    for way in far {
        if let Some(way) = way {
            note(heights, at + 1 + way.over, way.left + rest);
        }
    }
}

/// Goes through the lines from one on, and notes where each leads of which something was noted. Where one leads back to a line of
/// which nothing was noted before, that line is the answer, from which it has to be done again.
fn pass(lines: &[Line], heights: &mut [Option<usize>], from: usize) -> Option<usize>
    requires begun { (height : ℕ → ℕ) × (first : ℕ) × IsBegun height first lines.now heights.old }
    requires closed { IsClosed lines.now heights.old from }
    ensures begun { (height : ℕ → ℕ) (first : ℕ) → IsBegun height first lines.now heights.old → IsBegun height first lines.now heights.new }
    ensures grows { Grows heights.old heights.new }
    ensures all { IfNone result (IsClosed lines.now heights.new (length lines.now)) }
    ensures back { IfSome result (λ at. IsClosed lines.now heights.new at × (unnoted heights.new < unnoted heights.old)) }
{
    for at in from..lines.len() {
        if let Some(cells) = heights[at] {
            let act = lines[at].act;
            if let Instruction::GoBack(over) = act {
                if note(heights, at - over, cells) {
                    return Some(at - over);
                }
            } else {
                note_ways(heights, at, cells, act);
            }
        }
    }
    None
}

/// Notes how many cells stand at each line to which ways lead from the first, at which so many stand.
fn note_all(lines: &[Line], heights: &mut [Option<usize>], first: usize)
    requires part { (height : ℕ → ℕ) × ArePart height first lines.now }
    requires low { first ≤ 1 }
    requires none { heights.old ≡ replicate (length lines.now) None }
    ensures begun { (height : ℕ → ℕ) → ArePart height first lines.now → IsBegun height first lines.now heights.new }
    ensures first { IsNoted heights.new 0 }
    ensures closed { IsClosed lines.now heights.new (length lines.now) }
{
    note(heights, 0, first);
    let mut from = 0;
    while let Some(back) = pass(lines, heights, from) {
        from = back;
    }
}

/// How many cells stand at each line to which ways lead from the first, at which so many stand, and nothing of the others.
fn reached(alloc: Global, lines: &[Line], first: usize) -> Result<Vec<Option<usize>>, AllocError>
    requires part { (height : ℕ → ℕ) × ArePart height first lines.now }
    requires low { first ≤ 1 }
    ensures begun { IfOk result (λ v. (height : ℕ → ℕ) → ArePart height first lines.now → IsBegun height first lines.now v.items) }
    ensures first { IfOk result (λ v. IsNoted v.items 0) }
    ensures closed { IfOk result (λ v. IsClosed lines.now v.items (length lines.now)) }
{
    let mut heights = vec![in alloc; None; lines.len()]?;
    note_all(lines, &mut heights, first);
    Ok(heights)
}

/// The greatest number of cells at the lines to which ways lead from the first, at which so many stand.
pub(crate) fn depth(alloc: Global, lines: &[Line], first: usize) -> Result<usize, AllocError>
    requires part { (height : ℕ → ℕ) × ArePart height first lines.now }
    requires low { first ≤ 1 }
    ensures { IfOk result (IsDepth lines.now first) }
{
    let heights = reached(alloc, lines, first)?;
    let mut greatest = 0;
    for one in &heights {
        if let Some(cells) = one {
            greatest = greatest.max(*cells);
        }
    }
    Ok(greatest)
}
