//! Actions.

ghost use Rattle.std.specs.Prelude.{◌≡◌, ℕ, ℤ, map, option_map, IfOk};
ghost use Rattle.f3_tree.specs.Expressions as tree;
ghost use Rattle.f3_tree.specs.Statements.{action_view};
ghost use Rattle.f3_type_rules.specs.Shapes.{natural};
ghost use Rattle.f3_elaboration.specs.Actions as elaborated;
ghost use Rattle.f3_elaboration.specs.Nodes as nodes;
ghost use Rattle.f3_elaboration.specs.Views.{statement_view};
ghost use Rattle.f3_numbers.specs.Surroundings.{surroundings_of};

use crate::calls::{called, nothing_done};
use crate::kinds::variable_kind;
use crate::prints::items;
use crate::requests::{requests, status};
use f3_expression_nodes::expressions::{expression, variable};
use f3_expression_parts::selections::itself;
use f3_numbers::surroundings::Surroundings;
use f3_program::statement::Statement;
use f3_tree::expression::{Argument, Expression, Name};
use f3_tree::statement::Action;
use std::alloc::{AllocError, Global};

/// An assignment (7.4.1).
fn assignment(
    alloc: Global,
    from: Surroundings<'_>,
    list: &[(Name, Option<Vec<Argument>>)],
    e: &Expression,
) -> Result<Statement, AllocError>
    ensures { IfOk result (λ s. statement_view s ≡ elaborated.assignment (surroundings_of from.entry) (tree.parts_list (map tree.part_view list.now)) (tree.expression_view e.now)) }
{
    let kind = variable_kind(alloc, from, list)?;
    let object = variable(alloc, from, list)?;
    match expression(alloc, from, e) {
        Ok(value) => Ok(Statement::Assign(itself(object), kind, value)),
        Err(error) => {
            drop(object);
            Err(error)
        }
    }
}

/// An ALLOCATE (6.3.1).
fn allocation(
    alloc: Global,
    from: Surroundings<'_>,
    list: &[Vec<(Name, Option<Vec<Argument>>)>],
    written: &Option<Vec<(Name, Option<Vec<Argument>>)>>,
) -> Result<Statement, AllocError>
    ensures { IfOk result (λ s. statement_view s ≡ nodes.allocate (map (elaborated.request (surroundings_of from.entry)) (map tree.designator_view list.now)) (option_map (elaborated.variable (surroundings_of from.entry)) (option_map tree.designator_view written.now))) }
{
    let objects = requests(alloc, from, list)?;
    match status(alloc, from, written) {
        Ok(status) => Ok(Statement::Allocate(objects, status)),
        Err(error) => {
            drop(objects);
            Err(error)
        }
    }
}

/// A DEALLOCATE (6.3.3).
fn deallocation(
    alloc: Global,
    from: Surroundings<'_>,
    list: &[Vec<(Name, Option<Vec<Argument>>)>],
    written: &Option<Vec<(Name, Option<Vec<Argument>>)>>,
) -> Result<Statement, AllocError>
    ensures { IfOk result (λ s. statement_view s ≡ nodes.deallocate (map (elaborated.request (surroundings_of from.entry)) (map tree.designator_view list.now)) (option_map (elaborated.variable (surroundings_of from.entry)) (option_map tree.designator_view written.now))) }
{
    let objects = requests(alloc, from, list)?;
    match status(alloc, from, written) {
        Ok(status) => Ok(Statement::Deallocate(objects, status)),
        Err(error) => {
            drop(objects);
            Err(error)
        }
    }
}

/// A PRINT (9.5).
fn print(
    alloc: Global,
    from: Surroundings<'_>,
    list: &[Expression],
) -> Result<Statement, AllocError>
    ensures { IfOk result (λ s. statement_view s ≡ nodes.print (map (elaborated.item (surroundings_of from.entry)) (map tree.expression_view list.now))) }
{
    let found = items(alloc, from, list)?;
    Ok(Statement::Print(found))
}

/// The code of a STOP (8.4); its digits have no sign.
fn code(digits: i32) -> u32
    ensures { result ≡ natural digits }
{
    if digits < 0 { 0 } else { digits as u32 }
}

fn stop(digits: Option<i32>) -> Statement
    ensures { statement_view result ≡ nodes.stop (option_map natural digits) }
{
    match digits {
        Some(digits) => Statement::Stop(Some(code(digits))),
        None => Statement::Stop(None),
    }
}

/// An action in the elaborated program.
///
/// # Errors
///
/// Where memory runs out.
pub fn action(
    alloc: Global,
    from: Surroundings<'_>,
    action: &Action,
) -> Result<Statement, AllocError>
    ensures { IfOk result (λ s. statement_view s ≡ elaborated.action (surroundings_of from.entry) (action_view action.now)) }
{
    match action {
        Action::Assign(list, e) => assignment(alloc, from, list, e),
        Action::Call(name, list) => called(alloc, from, *name, list),
        Action::Allocate(list, written) => allocation(alloc, from, list, written),
        Action::Deallocate(list, written) => deallocation(alloc, from, list, written),
        Action::Print(list) => print(alloc, from, list),
        Action::Stop(digits) => Ok(stop(*digits)),
        Action::Return => Ok(Statement::Return),
        Action::Cycle => Ok(Statement::Cycle),
        Action::Exit => Ok(Statement::Exit),
        Action::Continue => Ok(nothing_done(alloc)),
    }
}
