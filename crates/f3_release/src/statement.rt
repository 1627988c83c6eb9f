//! Statements.

use crate::expression::{release_designator, release_expression};
use f3_program::expression::Designator;
use f3_program::statement::{Bounds, Item, Request, Selector, Statement};

/// Lets a statement go: what stands last in it, as the rest of a chain of ELSE IF, in a loop.
#[cycle(statement)]
pub fn release_statement(statement: Statement) {
    let mut current = statement;
    loop {
        match current {
            Statement::At(_, _, inner) => current = Box::into_inner(inner),
            Statement::Block(list) => {
                release_block(list);
                return;
            }
            Statement::Assign(x, _, e) => {
                release_designator(x);
                release_expression(e);
                return;
            }
            Statement::Call(e) => {
                release_expression(e);
                return;
            }
            Statement::MoveAlloc(_, _, x, y) => {
                release_designator(x);
                release_designator(y);
                return;
            }
            Statement::Allocate(list, status) => {
                release_requests(list, status);
                return;
            }
            Statement::Deallocate(list, status) => {
                release_requests(list, status);
                return;
            }
            Statement::Print(items) => {
                release_items(items);
                return;
            }
            Statement::Stop(_) => return,
            Statement::Return => return,
            Statement::Cycle => return,
            Statement::Exit => return,
            Statement::If(e, then, other) => {
                release_expression(e);
                release_statement(Box::into_inner(then));
                current = Box::into_inner(other);
            }
            Statement::Select(e, cases) => {
                release_expression(e);
                current = Box::into_inner(cases);
            }
            Statement::Case(_, then, other) => {
                release_statement(Box::into_inner(then));
                current = Box::into_inner(other);
            }
            Statement::While(e, body) => {
                release_expression(e);
                current = Box::into_inner(body);
            }
            Statement::Count(x, _, from, to, by, body) => {
                release_designator(x);
                release_expression(from);
                release_expression(to);
                release_expression(by);
                current = Box::into_inner(body);
            }
            Statement::Associate(list, body) => {
                release_selectors(list);
                current = Box::into_inner(body);
            }
        }
    }
}

/// Lets a block go.
#[cycle(statement)]
fn release_block(list: Vec<Statement>) {
    let mut left = list;
    while let Some(statement) = left.pop() {
        release_statement(statement);
    }
}

/// Lets the allocatables of an ALLOCATE or a DEALLOCATE go, with the STAT variable.
fn release_requests(list: Vec<Request>, status: Option<Designator>) {
    for request in list {
        release_designator(request.object);
        release_bounds(request.bounds);
    }
    if let Some(status) = status {
        release_designator(status);
    }
}

/// Lets the bounds of an allocatable go.
fn release_bounds(list: Vec<Bounds>) {
    for bounds in list {
        release_expression(bounds.lower);
        release_expression(bounds.upper);
    }
}

/// Lets the items of a PRINT go.
fn release_items(list: Vec<Item>) {
    for item in list {
        match item {
            Item::Value(e) => release_expression(e),
            Item::Text(_) => {}
        }
    }
}

/// Lets the selectors of an ASSOCIATE go.
fn release_selectors(list: Vec<Selector>) {
    for selector in list {
        match selector {
            Selector::Variable(x) => release_designator(x),
            Selector::Value(_, e) => release_expression(e),
        }
    }
}
