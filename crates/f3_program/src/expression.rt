//! Expressions, designators and arguments.
//!
//! What the source leaves to its reader is written out: kinds of results, what of an allocatable is meant, absent bounds.

use crate::declarations::{Base, Constant};

/// The object that a name means (16.4).
#[derive(Clone, Copy, PartialEq, Eq, Debug)]
pub enum Name {
    /// A variable that lives for the whole run, by its number.
    Static(usize),
    /// A variable of the activation, by its number; a function's result has the number behind the last.
    Local(usize),
    /// A dummy or an associate name: the dummies of the procedure have the first numbers, the names
    /// of each open ASSOCIATE the numbers behind those.
    Lent(usize),
}

/// An operator on two operands (ISO/IEC 1539-1:2004, 7.1.4 to 7.1.5), or an intrinsic function of two integers (13.7).
/// MAX and MIN of more are nested to the left.
#[derive(Clone, Copy, PartialEq, Eq, Debug)]
pub enum BinaryOperator {
    Add,
    Subtract,
    Multiply,
    Divide,
    Power,
    Mod,
    Modulo,
    Max,
    Min,
    Equal,
    NotEqual,
    Less,
    LessOrEqual,
    Greater,
    GreaterOrEqual,
    And,
    Or,
    Equivalent,
    NotEquivalent,
}

/// An operator on one operand (7.1.4, 7.1.5), or the intrinsic function ABS (13.7.1).
#[derive(Clone, Copy, PartialEq, Eq, Debug)]
pub enum UnaryOperator {
    Negate,
    Absolute,
    Not,
}

/// What SIZE, LBOUND and UBOUND ask of a dimension of an array (13.7.112, 13.7.60, 13.7.121).
#[derive(Clone, Copy, PartialEq, Eq, Debug)]
pub enum Query {
    Extent,
    Lower,
    Upper,
}

/// An expression (ISO/IEC 1539-1:2004, 7.1).
#[cycle(expression)]
#[derive(Drop)]
pub enum Expression {
    Literal(Constant),
    /// What a designator names holds.
    Variable(Box<Designator>),
    /// An expression in parentheses (7.1.7.3): no variable, with lower bounds 1.
    Group(Box<Expression>),
    /// With the type of the result.
    Unary(UnaryOperator, Base, Box<Expression>),
    /// With the type of the result.
    Binary(BinaryOperator, Base, Box<Expression>, Box<Expression>),
    /// An array constructor (4.7): its values are the arguments.
    Array(Vec<Argument>),
    /// A structure constructor (4.5.9): the number of the type, and the values of components as
    /// arguments with the components' numbers.
    Structure(usize, Vec<Argument>),
    /// A reference to a procedure (12.4), by its number, with the arguments in the order written.
    Call(usize, Vec<Argument>),
    /// ALLOCATED of a whole allocatable (13.7.9).
    Allocated(Box<Designator>),
    /// SIZE of all of an array.
    Size(Box<Argument>),
    /// SIZE, LBOUND or UBOUND of an array and a dimension.
    Bound(Query, Box<Argument>, Box<Expression>),
}

/// A value or an object for a dummy or a component (12.4.1), whose number comes first.
#[cycle(expression)]
#[derive(Drop)]
pub enum Argument {
    Value(usize, Box<Expression>),
    Variable(usize, Box<Designator>),
}

/// A variable or a part of one (6.1), part by part.
#[cycle(expression)]
#[derive(Drop)]
pub enum Designator {
    Name(Name, Selection),
    /// A component of what stands before the `%` (6.1.2), by its number in the type of that.
    Component(Box<Designator>, usize, Selection),
}

/// What of an object is meant (6.2).
#[cycle(expression)]
#[derive(Drop)]
pub enum Selection {
    /// The object itself, an allocatable without its contents.
    Whole,
    /// What an allocatable holds.
    Contents,
    /// Elements of an array, or, where the first is `true`, of the array that an allocatable holds.
    Elements(bool, Vec<Subscript>),
}

/// A subscript or a subscript triplet (6.2.2).
#[cycle(expression)]
#[derive(Drop)]
pub enum Subscript {
    At(Box<Expression>),
    /// Whether there is a lower bound, it or any expression, the same for the upper bound, and the step.
    Range(bool, Box<Expression>, bool, Box<Expression>, Box<Expression>),
}
