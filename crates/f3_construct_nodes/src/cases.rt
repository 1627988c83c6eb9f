//! Cases of a CASE construct.

ghost use Rattle.std.specs.Prelude.{◌≡◌, map, IfOk, OnOk};
ghost use Rattle.f3_tree.specs.Statements.{case_view, selector_view};
ghost use Rattle.f3_typed_parts.specs.Known.{context_of};
ghost use Rattle.f3_elaboration.specs.Nodes as n;
ghost use Rattle.f3_elaboration.specs.Nodes.{StatementNode};
ghost use Rattle.f3_elaboration.specs.Statements.{case_range};
ghost use Rattle.f3_elaboration.specs.Views.{statement_view};
ghost use Rattle.f3_construct_nodes.specs.Nested.{case_of, chosen, case_before};

use crate::constructs::ranges;
use crate::nodes::case;
use f3_program::statement::{Range, Statement};
use f3_tree::statement::{CaseValue, Selector};
use f3_typed_parts::known::{Known, Position};
use std::alloc::{AllocError, Global};

/// A case that is no DEFAULT, with its block.
#[derive(Drop)]
pub struct Case {
    pub ranges: Vec<Range>,
    pub block: Statement,
}

/// Adds a case of these values and ranges.
fn add_values(
    alloc: Global,
    known: &Known<'_>,
    at: Position,
    found: &mut Vec<Case>,
    values: &[CaseValue],
    block: Statement,
) -> Result<(), AllocError>
    ensures { OnOk result ((rest : StatementNode) → chosen (map case_of found.new.items) rest ≡ chosen (map case_of found.old.items) (n.case (map (case_range (context_of known.now at)) (map case_view values.now)) (statement_view block) rest)) }
{
    match ranges(alloc, known, at, values) {
        Ok(ranges) => {
            found.push(Case { ranges, block })?;
            Ok(())
        }
        Err(error) => {
            drop(block);
            Err(error)
        }
    }
}

/// The block of DEFAULT, for what was done where no case is met.
fn replaced(otherwise: Statement, block: Statement) -> Statement
    ensures { statement_view result ≡ statement_view block }
{
    drop(otherwise);
    block
}

/// Adds a case, or takes its block for what is done where none is met; answers what is done then.
pub fn add_case(
    alloc: Global,
    known: &Known<'_>,
    at: Position,
    found: &mut Vec<Case>,
    selector: &Selector,
    block: Statement,
    otherwise: Statement,
) -> Result<Statement, AllocError>
    ensures { IfOk result (λ s. (others : StatementNode → StatementNode) → chosen (map case_of found.new.items) (others (statement_view s)) ≡ chosen (map case_of found.old.items) (case_before (context_of known.now at) (selector_view selector.now) (statement_view block) others (statement_view otherwise))) }
{
    match selector {
        Selector::Values(values) => match add_values(alloc, known, at, found, values, block) {
            Ok(()) => Ok(otherwise),
            Err(error) => {
                drop(otherwise);
                Err(error)
            }
        },
        Selector::Default => Ok(replaced(otherwise, block)),
    }
}

/// Cases, and what is done where none is met.
pub fn chosen(
    alloc: Global,
    mut list: Vec<Case>,
    otherwise: Statement,
) -> Result<Statement, AllocError>
    ensures { IfOk result (λ s. statement_view s ≡ chosen (map case_of list.items) (statement_view otherwise)) }
{
    let mut node = otherwise;
    while let Some(last) = list.pop() {
        match case(alloc, last.ranges, last.block, node) {
            Ok(made) => node = made,
            Err(error) => {
                drop(list);
                return Err(error);
            }
        }
    }
    Ok(node)
}
