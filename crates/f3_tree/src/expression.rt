//! Names and expressions (ISO/IEC 1539-1:2004, clause 7).

use f3_places::source::Place;

/// An identifier where it stands.
#[derive(Clone, Copy, PartialEq, Eq, Debug)]
pub struct Name {
    /// Its number, from 0, among the names of the program: the same for the same letters, whatever their case.
    pub symbol: usize,
    pub place: Place,
}

/// The sign before the first term of a sum (7.1.1.3).
#[derive(Clone, Copy, PartialEq, Eq, Debug)]
pub enum Sign {
    Plus,
    Minus,
}

/// A relational operator (7.1.2), in letters or signs.
#[derive(Clone, Copy, PartialEq, Eq, Debug)]
pub enum Relation {
    Equal,
    NotEqual,
    Less,
    LessOrEqual,
    Greater,
    GreaterOrEqual,
}

/// An operator between the operands of one level (7.1.3).
#[derive(Clone, Copy, PartialEq, Eq, Debug)]
pub enum Operator {
    Power,
    Multiply,
    Divide,
    Add,
    Subtract,
    And,
    Or,
    Equivalent,
    NotEquivalent,
}

/// A kind of integers (4.4.1), which the number of their bytes names. INTEGER alone is of kind 4.
#[derive(Clone, Copy, PartialEq, Eq, Debug)]
pub enum IntegerKind {
    Four,
    Eight,
}

/// A literal integer, by its kind (4.4.1): 4 where no suffix names one.
#[derive(Clone, Copy, PartialEq, Eq, Debug)]
pub enum IntegerLiteral {
    /// 0 to 2147483647.
    Four(i32),
    /// 0 to 9223372036854775807.
    Eight(i64),
}

/// An expression (7.1.1). Operands of one level stand in a list, so an expression is nested no deeper than its
/// parentheses and the levels of operators.
#[cycle(expression)]
#[derive(Drop)]
pub enum Expression {
    /// A literal integer.
    Integer(Place, IntegerLiteral),
    /// `.TRUE.` or `.FALSE.`.
    Truth(Place, bool),
    /// A character constant: its number, from 0, among those of the program.
    Text(Place, usize),
    /// A designator, a function reference or a structure constructor: its parts from left to right, at least one,
    /// each a name and what stands in the parentheses behind it, if any.
    Designator(Vec<(Name, Option<Vec<Argument>>)>),
    /// An expression in parentheses.
    Group(Place, Box<Expression>),
    /// An array constructor, with at least one item (4.7).
    Array(Place, Vec<Expression>),
    /// A sign and the term behind it.
    Signed(Place, Sign, Box<Expression>),
    /// `.NOT.` and the comparison behind it.
    Not(Place, Box<Expression>),
    /// A comparison of two sums.
    Comparison(Box<Expression>, Relation, Box<Expression>),
    /// The first operand of a level, and each further one behind its operator, at least one.
    Chain(Box<Expression>, Vec<(Operator, Expression)>),
}

/// What stands between the commas of a pair of parentheses behind a name (R1220, R618 to R621, R457).
#[cycle(expression)]
#[derive(Drop)]
pub enum Argument {
    /// An expression, behind its keyword where it has one.
    Value(Option<Name>, Expression),
    /// A triplet `[first] : [last] [: stride]`, from its first token.
    Triplet(Place, Option<Expression>, Option<Expression>, Option<Expression>),
}
