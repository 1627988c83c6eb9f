//! Expressions, designators and lists of arguments at the front of a statement, as text.

use f3_expressions::arguments::arguments;
use f3_expressions::designators::designator;
use f3_expressions::expressions::expression;
use f3_tree::expression::{Argument, Expression, Name, Operator, Relation, Sign};
use f3_words::error::ReadError;
use f3_words::item::Item;
use std::alloc::{AllocError, Global};

/// The sign of an operator.
fn operator_sign(operator: Operator) -> &'static str {
    match operator {
        Operator::Power => "^",
        Operator::Multiply => "*",
        Operator::Divide => "/",
        Operator::Add => "+",
        Operator::Subtract => "-",
        Operator::And => "&",
        Operator::Or => "|",
        Operator::Equivalent => "~",
        Operator::NotEquivalent => "#",
    }
}

/// Adds an expression, each operation in braces, each literal as `0`.
#[cycle(show)]
fn show(out: &mut String, expression: &Expression) -> Result<(), AllocError> {
    match expression {
        Expression::Integer(_, _) => out.push('0'),
        Expression::Truth(_, truth) => out.push(if *truth { 'T' } else { 'F' }),
        Expression::Text(_, _) => out.push('"'),
        Expression::Designator(parts) => show_parts(out, parts),
        Expression::Group(_, inner) => {
            out.push('(')?;
            show(out, inner)?;
            out.push(')')
        }
        Expression::Array(_, elements) => {
            out.push('[')?;
            show_elements(out, elements)?;
            out.push(']')
        }
        Expression::Signed(_, sign, term) => {
            out.push_str(if *sign == Sign::Plus { "{+" } else { "{-" })?;
            show(out, term)?;
            out.push('}')
        }
        Expression::Not(_, operand) => {
            out.push_str("{!")?;
            show(out, operand)?;
            out.push('}')
        }
        Expression::Comparison(left, relation, right) => {
            out.push('{')?;
            show(out, left)?;
            out.push(if *relation == Relation::Equal {
                '='
            } else {
                '<'
            })?;
            show(out, right)?;
            out.push('}')
        }
        Expression::Chain(first, others) => {
            out.push('{')?;
            show(out, first)?;
            show_operands(out, others)?;
            out.push('}')
        }
    }
}

/// Adds operators and their operands.
#[cycle(show)]
fn show_operands(out: &mut String, operands: &[(Operator, Expression)]) -> Result<(), AllocError> {
    for (operator, operand) in operands {
        out.push_str(operator_sign(*operator))?;
        show(out, operand)?;
    }
    Ok(())
}

/// Adds elements, a comma behind each.
#[cycle(show)]
fn show_elements(out: &mut String, elements: &[Expression]) -> Result<(), AllocError> {
    for element in elements {
        show(out, element)?;
        out.push(',')?;
    }
    Ok(())
}

/// Adds parts, a `%` before each.
#[cycle(show)]
fn show_parts(out: &mut String, parts: &[(Name, Option<Vec<Argument>>)]) -> Result<(), AllocError> {
    for part in parts {
        out.push_str("%n")?;
        match &part.1 {
            Some(arguments) => show_arguments(out, arguments)?,
            None => (),
        }
    }
    Ok(())
}

/// Adds arguments in parentheses, a comma behind each.
#[cycle(show)]
fn show_arguments(out: &mut String, arguments: &[Argument]) -> Result<(), AllocError> {
    out.push('(')?;
    for argument in arguments {
        show_argument(out, argument)?;
        out.push(',')?;
    }
    out.push(')')
}

/// Adds an argument, a colon behind each of the first two parts of a triplet.
#[cycle(show)]
fn show_argument(out: &mut String, argument: &Argument) -> Result<(), AllocError> {
    match argument {
        Argument::Value(None, value) => show(out, value),
        Argument::Value(Some(_), value) => {
            out.push_str("n$")?;
            show(out, value)
        }
        Argument::Triplet(_, first, last, stride) => {
            show_bound(out, first)?;
            out.push(':')?;
            show_bound(out, last)?;
            out.push(':')?;
            show_bound(out, stride)
        }
    }
}

/// Adds what is written of a bound.
#[cycle(show)]
fn show_bound(out: &mut String, bound: &Option<Expression>) -> Result<(), AllocError> {
    match bound {
        Some(bound) => show(out, bound),
        None => Ok(()),
    }
}

/// Adds how many words stand behind what was read, where there are any.
fn show_rest(out: &mut String, rest: &[Item]) -> Result<(), AllocError> {
    match rest.len() {
        0 => Ok(()),
        count => write!(out, " {count}"),
    }
}

/// The expression that was read, and how many words stand behind it; `-` where there is none.
fn expression_text(
    alloc: Global,
    read: &Result<(Expression, &[Item]), ReadError>,
) -> Result<String, AllocError> {
    let mut out = String::new(alloc);
    match read {
        Ok((found, rest)) => {
            show(&mut out, found)?;
            show_rest(&mut out, rest)?;
        }
        Err(ReadError::NoForm) => out.push('-')?,
        Err(ReadError::Memory) => return Err(AllocError),
    }
    Ok(out)
}

fn expression_of(alloc: Global, items: &[Item]) -> Result<String, AllocError> {
    let read = expression(alloc, items);
    let text = expression_text(alloc, &read);
    drop(read);
    text
}

/// The symbols of a designator's parts, and their columns.
fn designator_text(
    alloc: Global,
    read: &Result<(Vec<(Name, Option<Vec<Argument>>)>, &[Item]), ReadError>,
) -> Result<String, AllocError> {
    let Ok((parts, _)) = read else {
        return Err(AllocError);
    };
    let mut out = format!(in alloc; "{} parts", parts.len())?;
    for part in parts {
        write!(out, ", {} at {}", part.0.symbol, part.0.place.column)?;
    }
    Ok(out)
}

fn designator_of(alloc: Global, items: &[Item]) -> Result<String, AllocError> {
    let read = designator(alloc, items);
    let text = designator_text(alloc, &read);
    drop(read);
    text
}

/// Adds the columns of a keyword and of an integer behind it, with its value, or the column of a triplet.
fn show_place(out: &mut String, argument: &Argument) -> Result<(), AllocError> {
    match argument {
        Argument::Value(Some(keyword), Expression::Integer(place, value)) => {
            let keyword = keyword.place.column;
            let column = place.column;
            write!(out, ", {keyword} and {column}: {value:?}")
        }
        Argument::Triplet(place, _, _, _) => write!(out, ", triplet at {}", place.column),
        _ => out.push_str(", another"),
    }
}

/// The places of arguments.
fn arguments_text(
    alloc: Global,
    read: &Result<(Vec<Argument>, &[Item]), ReadError>,
) -> Result<String, AllocError> {
    let Ok((found, _)) = read else {
        return Err(AllocError);
    };
    let mut out = format!(in alloc; "{} arguments", found.len())?;
    for argument in found {
        show_place(&mut out, argument)?;
    }
    Ok(out)
}

fn arguments_of(alloc: Global, items: &[Item]) -> Result<String, AllocError> {
    let read = arguments(alloc, items);
    let text = arguments_text(alloc, &read);
    drop(read);
    text
}

/// What stands at the front of these words.
pub fn of_items(alloc: Global, question: &str, items: &[Item]) -> Result<String, AllocError> {
    match question {
        "expression" => expression_of(alloc, items),
        "designator" => designator_of(alloc, items),
        _ => arguments_of(alloc, items),
    }
}
