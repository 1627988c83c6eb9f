//! Executable statements and constructs.

use crate::expression::{Argument, Expression, Name};
use f3_places::source::Place;

/// A designator: its parts from left to right, at least one, each a name and what stands in the parentheses behind
/// it, if any (6.1).
pub type Designator = Vec<(Name, Option<Vec<Argument>>)>;

/// What an action statement does.
#[derive(Drop)]
pub enum Action {
    /// An assignment (7.4.1).
    Assign(Designator, Expression),
    /// A CALL (12.4): the subroutine, and its arguments in the order written.
    Call(Name, Vec<Argument>),
    /// An ALLOCATE (6.3.1): its objects, at least one, and its STAT variable.
    Allocate(Vec<Designator>, Option<Designator>),
    /// A DEALLOCATE (6.3.3): its objects, at least one, and its STAT variable.
    Deallocate(Vec<Designator>, Option<Designator>),
    /// A PRINT of a list of items (9.5).
    Print(Vec<Expression>),
    /// A STOP (8.4), with the value of its digits.
    Stop(Option<i32>),
    Return,
    Cycle,
    Exit,
    Continue,
}

/// A value or a range of values of a CASE statement (8.1.3).
#[derive(Drop)]
pub enum CaseValue {
    Value(Expression),
    From(Expression),
    /// A range without a lower end, from its first token.
    UpTo(Place, Expression),
    Range(Expression, Expression),
}

/// What a CASE statement selects.
#[derive(Drop)]
pub enum Selector {
    /// At least one value or range.
    Values(Vec<CaseValue>),
    Default,
}

/// The control of a DO construct (8.1.6).
#[derive(Drop)]
pub enum Control {
    Forever,
    /// The variable, the first and the last value, and the step where it is written.
    Counted(Name, Expression, Expression, Option<Expression>),
    While(Expression),
}

/// An association (8.1.4): a name, and the expression that stands for it.
#[derive(Drop)]
pub struct Association {
    pub name: Name,
    pub selector: Expression,
}

/// An executable statement or construct. Each place is that of the first token of a statement.
#[derive(Drop)]
pub enum Statement {
    Action(Place, Action),
    /// A logical IF (8.1.2.4): its condition, and its action with the action's own first token.
    LogicalIf(Place, Expression, Place, Action),
    /// An IF construct (8.1.2): IF and each ELSE IF with its condition and its block, at least one, and the block of
    /// ELSE.
    If(Vec<(Place, Expression, Vec<Statement>)>, Option<Vec<Statement>>),
    /// A CASE construct (8.1.3): its expression, and each CASE with its block.
    Select(Place, Expression, Vec<(Place, Selector, Vec<Statement>)>),
    /// A DO construct (8.1.6).
    Do(Place, Control, Vec<Statement>),
    /// An ASSOCIATE construct (8.1.4): its associations in the order written, at least one.
    Associate(Place, Vec<Association>, Vec<Statement>),
}
