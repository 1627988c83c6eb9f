//! Which nodes a node reaches.

ghost use Rattle.std.specs.Prelude.{◌≡◌, ◌⊎◌, ◌<◌, ◌↔◌, length, IfOk, OnOk, IsTrue};
ghost use Rattle.f3_nodes.specs.Nodes.{InRange, Leads, targets_of};
ghost use Rattle.f3_nodes.specs.Inner.Search.{see, see_all};

use std::alloc::{AllocError, Global};

/// Marks a node as seen, and notes it where it was not.
fn see(next: usize, seen: &mut Vec<bool>, todo: &mut Vec<usize>) -> Result<(), AllocError>
    requires { next < length seen.old.items }
    ensures { OnOk result ((seen.new.items, todo.new.items) ≡ see (seen.old.items, todo.old.items) next) }
{
    if !seen[next] {
        seen[next] = true;
        todo.push(next)?;
    }
    Ok(())
}

/// Marks the uses of a node as seen, and notes those that were not.
fn see_uses(
    uses: &[Vec<usize>],
    node: usize,
    seen: &mut Vec<bool>,
    todo: &mut Vec<usize>,
) -> Result<(), AllocError>
    requires range { InRange uses.now }
    requires node { node < length uses.now }
    requires long { length seen.old.items ≡ length uses.now }
    ensures { OnOk result ((seen.new.items, todo.new.items) ≡ see_all (seen.old.items, todo.old.items) (targets_of uses.now node)) }
{
    for next in &uses[node] {
        see(*next, seen, todo)?;
    }
    Ok(())
}

/// Whether a node is another one or reaches it.
pub fn is_reached(
    alloc: Global,
    uses: &[Vec<usize>],
    from: usize,
    to: usize,
) -> Result<bool, AllocError>
    requires range { InRange uses.now }
    requires from { from < length uses.now }
    requires to { to < length uses.now }
    ensures { IfOk result (λ found. IsTrue found ↔ ((from ≡ to) ⊎ Leads uses.now from to)) }
{
    let mut seen = Vec::new(alloc);
    for _each in uses {
        seen.push(false)?;
    }
    seen[from] = true;
    let mut todo = Vec::new(alloc);
    todo.push(from)?;
    while let Some(node) = todo.pop() {
        see_uses(uses, node, &mut seen, &mut todo)?;
    }
    Ok(seen[to])
}
