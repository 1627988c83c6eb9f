//! The statements of a specification part.

use crate::expression::{Expression, IntegerKind, Name};
use f3_places::source::Place;

/// A local name and the name that it stands for (R1111).
#[derive(Clone, Copy, PartialEq, Eq, Debug)]
pub struct Rename {
    pub local: Name,
    pub original: Name,
}

/// What stands in an ONLY list (R1112).
#[derive(Clone, Copy, PartialEq, Eq, Debug)]
pub enum Only {
    Name(Name),
    Rename(Rename),
}

/// What a USE statement makes accessible.
#[derive(Drop)]
pub enum Selection {
    /// All public entities, some of them under other names.
    All(Vec<Rename>),
    /// Those of the ONLY list.
    Only(Vec<Only>),
}

/// A USE statement (11.2.1).
#[derive(Drop)]
pub struct Use {
    /// Its first token.
    pub place: Place,
    pub module: Name,
    pub selection: Selection,
}

/// An access specifier (5.1.2.1).
#[derive(Clone, Copy, PartialEq, Eq, Debug)]
pub enum Accessibility {
    Public,
    Private,
}

/// The intent of a dummy argument (5.1.2.7).
#[derive(Clone, Copy, PartialEq, Eq, Debug)]
pub enum Intent {
    In,
    Out,
    InOut,
}

/// A type specifier (5.1.1).
#[derive(Clone, Copy, PartialEq, Eq, Debug)]
pub enum TypeSpecifier {
    Integer(IntegerKind),
    Logical,
    Derived(Name),
}

/// The shape of an array (5.1.2.5), with at least one dimension.
#[derive(Drop)]
pub enum Shape {
    /// Upper bounds, each behind its lower bound where it has one.
    Explicit(Vec<(Option<Expression>, Expression)>),
    /// `:` throughout, each behind its lower bound where it has one.
    Deferred(Vec<Option<Expression>>),
}

/// What an attribute says (5.1.2).
#[derive(Drop)]
pub enum AttributeKind {
    Access(Accessibility),
    Protected,
    Parameter,
    Save,
    Allocatable,
    Dimension(Shape),
    Intent(Intent),
}

/// An attribute that stands in a declaration.
#[derive(Drop)]
pub struct Attribute {
    /// Its keyword.
    pub place: Place,
    pub kind: AttributeKind,
}

/// A declared name, with a shape of its own and an initializer where it has them (R504).
#[derive(Drop)]
pub struct Entity {
    pub name: Name,
    pub shape: Option<Shape>,
    pub initial: Option<Expression>,
}

/// A type declaration statement (5.1), or the declaration of components (4.5.3).
#[derive(Drop)]
pub struct Declaration {
    /// Its first token.
    pub place: Place,
    pub specifier: TypeSpecifier,
    /// The attributes in the order written.
    pub attributes: Vec<Attribute>,
    /// The entities in the order written, at least one.
    pub entities: Vec<Entity>,
}

/// PUBLIC or PRIVATE as a statement (5.2.1).
#[derive(Drop)]
pub struct Access {
    /// Its first token.
    pub place: Place,
    pub accessibility: Accessibility,
    /// The names of its list; none where it has no list.
    pub names: Vec<Name>,
}

/// The definition of a derived type (4.5).
#[derive(Drop)]
pub struct TypeDefinition {
    /// The first token of its TYPE statement.
    pub place: Place,
    /// The access specifier of its TYPE statement, at its place.
    pub access: Option<(Place, Accessibility)>,
    pub name: Name,
    /// Its PRIVATE statement.
    pub private: Option<Place>,
    /// Its components, at least one declaration.
    pub components: Vec<Declaration>,
    /// Its CONTAINS statement.
    pub contains: Option<Place>,
    /// The names in its FINAL statements, in the order written (4.5.5).
    pub finals: Vec<Name>,
}

/// A declaration or an access statement of a specification part.
#[derive(Drop)]
pub enum Specification {
    Declaration(Declaration),
    Access(Access),
    /// PROTECTED as a statement (5.2.10): its first token, and its names.
    Protected(Place, Vec<Name>),
    /// SAVE without a list (5.2.12): its first token.
    Save(Place),
    Type(TypeDefinition),
}

/// A specification part (2.2).
#[derive(Drop)]
pub struct SpecificationPart {
    /// The USE statements in the order written.
    pub uses: Vec<Use>,
    /// IMPLICIT NONE, where it is written.
    pub implicit_none: Option<Place>,
    /// The other statements in the order written.
    pub specifications: Vec<Specification>,
}
