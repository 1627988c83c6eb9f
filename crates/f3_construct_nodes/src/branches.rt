//! Branches of an IF construct.

ghost use Rattle.std.specs.Prelude.{◌≡◌, true, map, IfOk};
ghost use Rattle.f3_elaboration.specs.Nodes as n;
ghost use Rattle.f3_elaboration.specs.Views.{statement_view};
ghost use Rattle.f3_construct_nodes.specs.Nested.{branch_of, branched};

use crate::nodes::{at, branch};
use f3_places::source::Place;
use f3_program::expression::Expression;
use f3_program::statement::Statement;
use std::alloc::{AllocError, Global};

/// IF or an ELSE IF, with its condition and its block.
#[derive(Drop)]
pub struct Branch {
    pub place: Place,
    pub condition: Expression,
    pub block: Statement,
}

/// A branch at its place, and what is done where its condition does not hold.
fn placed(
    alloc: Global,
    begins: bool,
    last: Branch,
    otherwise: Statement,
) -> Result<Statement, AllocError>
    ensures { IfOk result (λ s. statement_view s ≡ n.at last.place begins (n.branch (branch_of last).condition (branch_of last).block (statement_view otherwise))) }
{
    let inner = branch(alloc, last.condition, last.block, otherwise)?;
    at(alloc, last.place, begins, inner)
}

/// Branches, of which the first begins the construct, and what is done where no condition holds.
pub fn branched(
    alloc: Global,
    mut list: Vec<Branch>,
    otherwise: Statement,
) -> Result<Statement, AllocError>
    ensures { IfOk result (λ s. statement_view s ≡ branched true (map branch_of list.items) (statement_view otherwise)) }
{
    let mut node = otherwise;
    while let Some(last) = list.pop() {
        let begins = list.is_empty();
        match placed(alloc, begins, last, node) {
            Ok(made) => node = made,
            Err(error) => {
                drop(list);
                return Err(error);
            }
        }
    }
    Ok(node)
}
