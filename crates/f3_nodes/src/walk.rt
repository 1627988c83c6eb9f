//! An order of the nodes of a graph in which used ones come first.

ghost use Rattle.std.specs.Prelude.{◌≡◌, ℕ, ◌+◌, ◌^◌, ◌<◌, ◌≤◌, length, IfSome, IfNone, IfOk};
ghost use Rattle.std.specs.List.{slice_index_or};
ghost use Rattle.f3_nodes.specs.Nodes.{InRange, targets_of, Ordered};
ghost use Rattle.f3_nodes.specs.Inner.Marks.{IsSettled, NoneOpen, Visits, IsNew};

use std::alloc::{AllocError, Global};

/// How far the walk is with a node.
#[derive(Clone, Copy, Debug, Drop)]
pub enum Mark {
    New,
    Open,
    Done,
}

/// A use of a node by its number, or none past the last.
fn use_at(uses: &[Vec<usize>], unit: usize, at: usize) -> Option<usize>
    requires { unit < length uses.now }
    ensures small { IfSome result (λ v. at + 1 < 2 ^ 64) }
    ensures none { IfNone result (length (targets_of uses.now unit) ≤ at) }
    ensures some { IfSome result (λ v. (at < length (targets_of uses.now unit)) × (v ≡ slice_index_or (targets_of uses.now unit) at 0)) }
{
    uses[unit].get(at).copied()
}

/// Visits a node and all that it reaches. The answer is whether no node was seen to reach itself.
fn visit(
    alloc: Global,
    uses: &[Vec<usize>],
    marks: &mut Vec<Mark>,
    order: &mut Vec<usize>,
    root: usize,
) -> Result<bool, AllocError>
    requires range { InRange uses.now }
    requires root { root < length uses.now }
    requires new { IsNew marks.old.items root }
    requires closed { NoneOpen marks.old.items }
    requires settled { IsSettled uses.now marks.old.items order.old.items }
    ensures { Visits uses.now root order.old.items result marks.new.items order.new.items }
{
    let mut stack = Vec::new(alloc);
    marks[root] = Mark::Open;
    stack.push((root, 0))?;
    while let Some((unit, at)) = stack.pop() {
        match use_at(uses, unit, at) {
            Some(next) => match marks[next] {
                Mark::Done => stack.push((unit, at + 1))?,
                Mark::New => {
                    stack.push((unit, at))?;
                    marks[next] = Mark::Open;
                    stack.push((next, 0))?;
                }
                Mark::Open => return Ok(false),
            },
            None => {
                marks[unit] = Mark::Done;
                order.push(unit)?;
            }
        }
    }
    Ok(true)
}

/// Visits a node, where it is not done.
fn finish(
    alloc: Global,
    uses: &[Vec<usize>],
    marks: &mut Vec<Mark>,
    order: &mut Vec<usize>,
    root: usize,
) -> Result<bool, AllocError>
    requires range { InRange uses.now }
    requires root { root < length uses.now }
    requires closed { NoneOpen marks.old.items }
    requires settled { IsSettled uses.now marks.old.items order.old.items }
    ensures { Visits uses.now root order.old.items result marks.new.items order.new.items }
{
    match marks[root] {
        Mark::New => visit(alloc, uses, marks, order, root),
        Mark::Done => Ok(true),
        Mark::Open => unreachable!(),
    }
}

/// An order of all nodes in which used ones come first, or none where some node reaches itself. The list has,
/// for each node, the nodes that it uses.
pub fn used_first(alloc: Global, uses: &[Vec<usize>]) -> Result<Option<Vec<usize>>, AllocError>
    requires { InRange uses.now }
    ensures { IfOk result (λ found. Ordered uses.now found) }
{
    let mut marks = Vec::new(alloc);
    for _unit in uses {
        marks.push(Mark::New)?;
    }
    let mut order = Vec::new(alloc);
    for root in 0..uses.len() {
        if !finish(alloc, uses, &mut marks, &mut order, root)? {
            return Ok(None);
        }
    }
    Ok(Some(order))
}
