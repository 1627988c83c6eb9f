//! What is given in parentheses behind a name.

use f3_program::expression::Expression;
use f3_tree::expression::Name;

/// An item in parentheses behind a name, with its expressions made (6.2.2, 12.4).
#[derive(Drop)]
pub enum Given {
    /// A value, behind its keyword where it has one.
    Value(Option<Name>, Expression),
    /// A subscript triplet: its first and last subscript and its stride, each where it is written.
    Triplet(Option<Expression>, Option<Expression>, Option<Expression>),
}

/// A part of a designator: its name, and what is given in the parentheses behind it (6.1.2).
#[derive(Drop)]
pub struct Part {
    pub name: Name,
    pub given: Option<Vec<Given>>,
}
