//! Operators on expressions (7.1).

ghost use Rattle.std.specs.Prelude.{◌≡◌, IfOk};
ghost use Rattle.f3_program.specs.declared.declarations.Base.TheVariants as base;
ghost use Rattle.f3_program.specs.declared.expression.UnaryOperator.TheVariants as unary;
ghost use Rattle.f3_kinds.specs.Operands as operands;
ghost use Rattle.f3_elaboration.specs.Context as context;
ghost use Rattle.f3_elaboration.specs.Expressions as elaborated;
ghost use Rattle.f3_elaboration.specs.Nodes as nodes;
ghost use Rattle.f3_elaboration.specs.Views.{expression_view};
ghost use Rattle.f3_numbers.specs.Surroundings.{surroundings_of};
ghost use Rattle.f3_expression_parts.specs.Parts.{operand_of};

use f3_kinds::types::{DataType, Wanted};
use f3_numbers::surroundings::Surroundings;
use f3_program::declarations::Base;
use f3_program::expression::{BinaryOperator, Expression, UnaryOperator};
use f3_tree::expression::{IntegerKind, Operator, Relation, Sign};
use f3_typed_parts::operands::wanted_by;
use f3_typed_parts::rows::wider;
use std::alloc::{AllocError, Global};

/// An operand, with its kind where it is an integer.
#[derive(Drop)]
pub struct Operand {
    pub value: Expression,
    pub kind: IntegerKind,
}

/// Whether operators of a level are applied from the right: `**` alone is (7.1.1.3).
pub fn is_power(operator: Operator) -> bool
    ensures { result ≡ elaborated.is_power operator }
{
    match operator {
        Operator::Power => true,
        Operator::Multiply => false,
        Operator::Divide => false,
        Operator::Add => false,
        Operator::Subtract => false,
        Operator::And => false,
        Operator::Or => false,
        Operator::Equivalent => false,
        Operator::NotEquivalent => false,
    }
}

fn operation(operator: Operator) -> BinaryOperator
    ensures { result ≡ elaborated.operation operator }
{
    match operator {
        Operator::Power => BinaryOperator::Power,
        Operator::Multiply => BinaryOperator::Multiply,
        Operator::Divide => BinaryOperator::Divide,
        Operator::Add => BinaryOperator::Add,
        Operator::Subtract => BinaryOperator::Subtract,
        Operator::And => BinaryOperator::And,
        Operator::Or => BinaryOperator::Or,
        Operator::Equivalent => BinaryOperator::Equivalent,
        Operator::NotEquivalent => BinaryOperator::NotEquivalent,
    }
}

fn comparison(relation: Relation) -> BinaryOperator
    ensures { result ≡ elaborated.comparison relation }
{
    match relation {
        Relation::Equal => BinaryOperator::Equal,
        Relation::NotEqual => BinaryOperator::NotEqual,
        Relation::Less => BinaryOperator::Less,
        Relation::LessOrEqual => BinaryOperator::LessOrEqual,
        Relation::Greater => BinaryOperator::Greater,
        Relation::GreaterOrEqual => BinaryOperator::GreaterOrEqual,
    }
}

fn type_of_result(wanted: Wanted, kind: IntegerKind) -> Option<DataType>
    ensures { result ≡ (operands.result_of wanted kind).data_type }
{
    match wanted {
        Wanted::Integer => Some(DataType::Integer(kind)),
        Wanted::Logical => Some(DataType::Logical),
        Wanted::Intrinsic => Some(DataType::Logical),
    }
}

fn unary(
    alloc: Global,
    operator: UnaryOperator,
    of: Base,
    x: Expression,
) -> Result<Expression, AllocError>
    ensures { IfOk result (λ y. expression_view y ≡ nodes.unary operator of (expression_view x)) }
{
    Ok(Expression::Unary(operator, of, Box::new(alloc, x)?))
}

fn binary(
    alloc: Global,
    operator: BinaryOperator,
    of: Base,
    x: Expression,
    y: Expression,
) -> Result<Expression, AllocError>
    ensures { IfOk result (λ z. expression_view z ≡ nodes.binary operator of (expression_view x) (expression_view y)) }
{
    let x = Box::new(alloc, x)?;
    let y = Box::new(alloc, y)?;
    Ok(Expression::Binary(operator, of, x, y))
}

/// A sign before an expression of this type. `+` leaves its operand as it is, but for being a variable (7.1.4).
///
/// # Errors
///
/// Where memory runs out.
pub fn signed(
    alloc: Global,
    from: Surroundings<'_>,
    sign: Sign,
    of: Option<DataType>,
    x: Expression,
) -> Result<Expression, AllocError>
    ensures { IfOk result (λ y. expression_view y ≡ elaborated.signed sign (context.base (surroundings_of from.entry) of) (expression_view x)) }
{
    match sign {
        Sign::Plus => Ok(Expression::Group(Box::new(alloc, x)?)),
        Sign::Minus => {
            let found = unary(alloc, UnaryOperator::Negate, from.numbers.base(of), x)?;
            Ok(found)
        }
    }
}

/// `.NOT.` of an expression (7.2.4).
///
/// # Errors
///
/// Where memory runs out.
pub fn denied(alloc: Global, x: Expression) -> Result<Expression, AllocError>
    ensures { IfOk result (λ y. expression_view y ≡ nodes.unary unary.Not base.Logical (expression_view x)) }
{
    let found = unary(alloc, UnaryOperator::Not, Base::Logical, x)?;
    Ok(found)
}

/// A comparison of two expressions (7.2.3).
///
/// # Errors
///
/// Where memory runs out.
pub fn compared(
    alloc: Global,
    relation: Relation,
    x: Expression,
    y: Expression,
) -> Result<Expression, AllocError>
    ensures { IfOk result (λ z. expression_view z ≡ nodes.binary (elaborated.comparison relation) base.Logical (expression_view x) (expression_view y)) }
{
    let found = binary(alloc, comparison(relation), Base::Logical, x, y)?;
    Ok(found)
}

/// Two operands and the operator between them. The result has the wider kind of the two (7.1.4.2).
///
/// # Errors
///
/// Where memory runs out.
pub fn joined(
    alloc: Global,
    from: Surroundings<'_>,
    operator: Operator,
    x: Operand,
    y: Operand,
) -> Result<Operand, AllocError>
    ensures { IfOk result (λ z. operand_of z ≡ elaborated.joined (surroundings_of from.entry) operator (operand_of x) (operand_of y)) }
{
    let kind = wider(x.kind, y.kind);
    let of = from.numbers.base(type_of_result(wanted_by(operator), kind));
    let value = binary(alloc, operation(operator), of, x.value, y.value)?;
    Ok(Operand { value, kind })
}
