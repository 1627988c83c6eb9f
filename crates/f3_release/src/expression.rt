//! Expressions, designators and arguments.

use f3_program::expression::{Argument, Designator, Expression, Selection, Subscript};

/// Lets an expression go: chains of operators to the left, as of sums, and to the right, as of powers, in a loop.
#[cycle(expression)]
pub fn release_expression(expression: Expression) {
    let mut current = expression;
    loop {
        match current {
            Expression::Literal(_) => return,
            Expression::Variable(x) => {
                release_designator(Box::into_inner(x));
                return;
            }
            Expression::Group(x) => current = Box::into_inner(x),
            Expression::Unary(_, _, x) => current = Box::into_inner(x),
            Expression::Binary(_, _, x, y) => {
                let x = Box::into_inner(x);
                let y = Box::into_inner(y);
                if let Expression::Binary(_, _, _, _) = &x {
                    release_expression(y);
                    current = x;
                } else {
                    release_expression(x);
                    current = y;
                }
            }
            Expression::Array(list) => {
                release_arguments(list);
                return;
            }
            Expression::Structure(_, list) => {
                release_arguments(list);
                return;
            }
            Expression::Call(_, list) => {
                release_arguments(list);
                return;
            }
            Expression::Allocated(x) => {
                release_designator(Box::into_inner(x));
                return;
            }
            Expression::Size(array) => {
                release_argument(Box::into_inner(array));
                return;
            }
            Expression::Bound(_, array, dimension) => {
                release_argument(Box::into_inner(array));
                current = Box::into_inner(dimension);
            }
        }
    }
}

/// Lets arguments go.
#[cycle(expression)]
fn release_arguments(list: Vec<Argument>) {
    let mut left = list;
    while let Some(argument) = left.pop() {
        release_argument(argument);
    }
}

/// Lets an argument go.
#[cycle(expression)]
fn release_argument(argument: Argument) {
    match argument {
        Argument::Value(_, x) => release_expression(Box::into_inner(x)),
        Argument::Variable(_, x) => release_designator(Box::into_inner(x)),
    }
}

/// Lets a designator go.
#[cycle(expression)]
pub fn release_designator(designator: Designator) {
    let mut current = designator;
    loop {
        match current {
            Designator::Name(_, selection) => {
                release_selection(selection);
                return;
            }
            Designator::Component(object, _, selection) => {
                release_selection(selection);
                current = Box::into_inner(object);
            }
        }
    }
}

/// Lets a selection go.
#[cycle(expression)]
fn release_selection(selection: Selection) {
    match selection {
        Selection::Whole => {}
        Selection::Contents => {}
        Selection::Elements(_, subscripts) => release_subscripts(subscripts),
    }
}

/// Lets subscripts go.
#[cycle(expression)]
fn release_subscripts(list: Vec<Subscript>) {
    let mut left = list;
    while let Some(subscript) = left.pop() {
        release_subscript(subscript);
    }
}

/// Lets a subscript or a triplet go.
#[cycle(expression)]
fn release_subscript(subscript: Subscript) {
    match subscript {
        Subscript::At(x) => release_expression(Box::into_inner(x)),
        Subscript::Range(_, lower, _, upper, step) => {
            release_expression(Box::into_inner(lower));
            release_expression(Box::into_inner(upper));
            release_expression(Box::into_inner(step));
        }
    }
}
