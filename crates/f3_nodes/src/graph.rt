//! Graphs.

ghost use Rattle.std.specs.Prelude.{◌≡◌, ℕ, [], length, IfOk};
ghost use Rattle.f3_nodes.specs.Nodes.{targets_of};

use std::alloc::{AllocError, Global};

/// A graph of so many nodes and no steps. Memory: a growth of the host's memory was refused.
pub fn empty_graph(alloc: Global, count: usize) -> Result<Vec<Vec<usize>>, AllocError>
    ensures long { IfOk result (λ g. length g.items ≡ count) }
    ensures steps { IfOk result (λ g. (a : ℕ) → targets_of g.items a ≡ []) }
{
    let mut graph = Vec::new(alloc);
    for _node in 0..count {
        graph.push(Vec::new(alloc))?;
    }
    Ok(graph)
}
