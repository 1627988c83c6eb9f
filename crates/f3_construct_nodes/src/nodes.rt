//! Nodes of statements from the nodes of their parts.

ghost use Rattle.std.specs.Prelude.{◌≡◌, true, map, IfOk};
ghost use Rattle.f3_elaboration.specs.Actions as elaborated;
ghost use Rattle.f3_elaboration.specs.Nodes as n;
ghost use Rattle.f3_elaboration.specs.Views.{expression_view, selector_view, statement_view, statements_of};

use f3_places::source::Place;
use f3_program::expression::Expression;
use f3_program::statement::{Range, Selector, Statement};
use std::alloc::{AllocError, Global};

/// An action or a construct that begins at a place, or, where the flag is `false`, an ELSE IF there.
pub fn at(
    alloc: Global,
    place: Place,
    begins: bool,
    statement: Statement,
) -> Result<Statement, AllocError>
    ensures { IfOk result (λ s. statement_view s ≡ n.at place begins (statement_view statement)) }
{
    let inner = Box::new(alloc, statement)?;
    Ok(Statement::At(place, begins, inner))
}

/// One statement after another (8.1.1).
pub fn many(statements: Vec<Statement>) -> Statement
    ensures { statement_view result ≡ n.block (statements_of (map statement_view statements.items)) }
{
    Statement::Block(statements)
}

/// What CONTINUE does (8.1.6.3).
pub fn nothing_done(alloc: Global) -> Statement
    ensures { statement_view result ≡ elaborated.nothing_done }
{
    Statement::Block(Vec::new(alloc))
}

/// What is done where a condition holds, and where not (8.1.2).
pub fn branch(
    alloc: Global,
    condition: Expression,
    block: Statement,
    otherwise: Statement,
) -> Result<Statement, AllocError>
    ensures { IfOk result (λ s. statement_view s ≡ n.branch (expression_view condition) (statement_view block) (statement_view otherwise)) }
{
    match Box::new(alloc, block) {
        Ok(block) => match Box::new(alloc, otherwise) {
            Ok(otherwise) => Ok(Statement::If(condition, block, otherwise)),
            Err(error) => {
                drop(condition);
                drop(block);
                Err(error.into())
            }
        },
        Err(error) => {
            drop(condition);
            drop(otherwise);
            Err(error.into())
        }
    }
}

/// A case, and what is done where the value is in none of its ranges (8.1.3).
pub fn case(
    alloc: Global,
    ranges: Vec<Range>,
    block: Statement,
    otherwise: Statement,
) -> Result<Statement, AllocError>
    ensures { IfOk result (λ s. statement_view s ≡ n.case ranges.items (statement_view block) (statement_view otherwise)) }
{
    match Box::new(alloc, block) {
        Ok(block) => match Box::new(alloc, otherwise) {
            Ok(otherwise) => Ok(Statement::Case(ranges, block, otherwise)),
            Err(error) => {
                drop(ranges);
                drop(block);
                Err(error.into())
            }
        },
        Err(error) => {
            drop(ranges);
            drop(otherwise);
            Err(error.into())
        }
    }
}

/// A SELECT CASE at a place (8.1.3).
pub fn select(
    alloc: Global,
    place: Place,
    value: Expression,
    cases: Statement,
) -> Result<Statement, AllocError>
    ensures { IfOk result (λ s. statement_view s ≡ n.at place true (n.select (expression_view value) (statement_view cases))) }
{
    match Box::new(alloc, cases) {
        Ok(inner) => at(alloc, place, true, Statement::Select(value, inner)),
        Err(error) => {
            drop(value);
            Err(error.into())
        }
    }
}

/// An ASSOCIATE at a place (8.1.4).
pub fn associate(
    alloc: Global,
    place: Place,
    selectors: Vec<Selector>,
    body: Statement,
) -> Result<Statement, AllocError>
    ensures { IfOk result (λ s. statement_view s ≡ n.at place true (n.associate (map selector_view selectors.items) (statement_view body))) }
{
    match Box::new(alloc, body) {
        Ok(inner) => at(alloc, place, true, Statement::Associate(selectors, inner)),
        Err(error) => {
            drop(selectors);
            Err(error.into())
        }
    }
}
