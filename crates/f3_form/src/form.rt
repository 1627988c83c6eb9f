//! One statement, apart from how statements make units.

use f3_places::source::Place;
use f3_tree::declaration::{Access, Accessibility, Declaration, Use};
use f3_tree::expression::{Expression, Name};
use f3_tree::program::{Header, UnitKind};
use f3_tree::statement::{Action, Association, Control, Selector};

/// What an END says that it ends.
#[derive(Clone, Copy, PartialEq, Eq, Debug)]
pub enum Ended {
    Module,
    Program,
    Subroutine,
    Function,
    Type,
    If,
    Select,
    Do,
    Associate,
}

/// What a statement is. Its place, that of its first token, is told apart from it; the parts that have a place of
/// their own hold it too.
#[derive(Drop)]
pub enum Form {
    /// `MODULE n` or `PROGRAM n`
    Unit(UnitKind, Name),
    Contains,
    /// `END [what [n]]`
    End(Option<Ended>, Option<Name>),
    /// A SUBROUTINE or FUNCTION statement.
    Procedure(Header),
    Use(Use),
    ImplicitNone,
    /// PUBLIC or PRIVATE, with a list or without one.
    Access(Access),
    /// `PROTECTED [::] n {, n}`
    Protected(Vec<Name>),
    Save,
    Declare(Declaration),
    /// `TYPE [, access ::] n`, with the place of the access specifier.
    Type(Option<(Place, Accessibility)>, Name),
    /// `FINAL [::] n {, n}`
    Final(Vec<Name>),
    Act(Action),
    /// `IF (e) action`, with the action's own first token.
    LogicalIf(Expression, Place, Action),
    /// `IF (e) THEN`
    IfThen(Expression),
    ElseIf(Expression),
    Else,
    /// `SELECT CASE (e)`
    Select(Expression),
    Case(Selector),
    Do(Control),
    /// `ASSOCIATE (n => e {, n => e})`
    Associate(Vec<Association>),
}
