//! Procedures, program units and programs.

use crate::declaration::{SpecificationPart, TypeSpecifier};
use crate::expression::Name;
use crate::statement::Statement;
use f3_places::source::Place;
use indexmap::IndexSet;

/// What a procedure is.
#[derive(Clone, Copy, PartialEq, Eq, Debug)]
pub enum ProcedureKind {
    Subroutine,
    /// A function, with the type that its prefix gives and the name behind RESULT, where they are written.
    Function(Option<TypeSpecifier>, Option<Name>),
}

/// The SUBROUTINE or FUNCTION statement of a procedure (12.5.2).
#[derive(Drop)]
pub struct Header {
    /// Its first token.
    pub place: Place,
    /// Whether PURE stands before it (12.6).
    pub pure: bool,
    /// Whether RECURSIVE stands before it.
    pub recursive: bool,
    pub kind: ProcedureKind,
    pub name: Name,
    /// The dummy arguments in the order written.
    pub dummies: Vec<Name>,
}

/// A module procedure (12.5.2).
#[derive(Drop)]
pub struct Procedure {
    pub header: Header,
    pub part: SpecificationPart,
    pub body: Vec<Statement>,
    /// The first token of its END.
    pub end: Place,
}

/// What a program unit is.
#[derive(Clone, Copy, PartialEq, Eq, Debug)]
pub enum UnitKind {
    Module,
    Program,
}

/// A program unit (2.2).
#[derive(Drop)]
pub struct Unit {
    /// Its first token.
    pub place: Place,
    pub kind: UnitKind,
    pub name: Name,
    pub part: SpecificationPart,
    /// The executable statements; a module has none.
    pub body: Vec<Statement>,
    /// Its CONTAINS statement; a program has none.
    pub contains: Option<Place>,
    /// Its procedures; a program, or a module without CONTAINS, has none.
    pub procedures: Vec<Procedure>,
    /// The first token of its END.
    pub end: Place,
}

/// A list of sources.
#[derive(Drop)]
pub struct Program {
    /// The distinct names of the sources, in lower case, in the order in which they first stand there.
    pub names: IndexSet<String>,
    /// The character constants of the sources in the order written, each doubled quote in them once.
    pub texts: Vec<Vec<u8>>,
    /// The program units in the order of their places.
    pub units: Vec<Unit>,
    /// The end of the last source; line 1, column 1 of source 1 where there is none.
    pub end: Place,
}
