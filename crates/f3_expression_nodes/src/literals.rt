//! Literals, parentheses and items of array constructors.

ghost use Rattle.std.specs.Prelude.{◌≡◌, Some, IfOk};
ghost use Rattle.f3_kinds.specs.Values.{literal_value};
ghost use Rattle.f3_elaboration.specs.Declarations.{constant_of};
ghost use Rattle.f3_elaboration.specs.Expressions as elaborated;
ghost use Rattle.f3_elaboration.specs.Nodes as nodes;
ghost use Rattle.f3_elaboration.specs.Views.{argument_view, expression_view};

use f3_program::declarations::Constant;
use f3_program::expression::{Argument, Expression};
use f3_tree::expression::IntegerLiteral;
use std::alloc::{AllocError, Global};

/// A literal integer (4.4.1).
pub fn integer(literal: IntegerLiteral) -> Expression
    ensures { expression_view result ≡ nodes.literal (constant_of (Some (literal_value literal))) }
{
    match literal {
        IntegerLiteral::Four(n) => Expression::Literal(Constant::Number(i64::from(n))),
        IntegerLiteral::Eight(n) => Expression::Literal(Constant::Number(n)),
    }
}

/// `.TRUE.` or `.FALSE.` (4.4.5).
pub fn truth(truth: bool) -> Expression
    ensures { expression_view result ≡ elaborated.truth truth }
{
    Expression::Literal(Constant::Truth(truth))
}

/// An expression in parentheses (7.1.7.3).
///
/// # Errors
///
/// Where memory runs out.
pub fn group(alloc: Global, x: Expression) -> Result<Expression, AllocError>
    ensures { IfOk result (λ y. expression_view y ≡ nodes.group (expression_view x)) }
{
    Ok(Expression::Group(Box::new(alloc, x)?))
}

/// A value of an array constructor (4.7).
///
/// # Errors
///
/// Where memory runs out.
pub fn item(alloc: Global, x: Expression) -> Result<Argument, AllocError>
    ensures { IfOk result (λ y. argument_view y ≡ nodes.value 0 (expression_view x)) }
{
    Ok(Argument::Value(0, Box::new(alloc, x)?))
}
