//! The outline of a scope.

use f3_places::source::Place;
use f3_tree::declaration::{Accessibility, Intent};
use f3_tree::expression::Name;

/// What a scope is: a program unit, a procedure (ISO/IEC 1539-1:2004, 16.2) or an ASSOCIATE construct (8.1.4, 16.3).
#[derive(Clone, Copy, PartialEq, Eq, Debug)]
pub enum ScopeKind {
    Module,
    Program,
    Subroutine,
    Function,
    Associate,
}

/// An item of a USE statement. An only-name stands for itself (11.2.1).
#[derive(Clone, Copy, PartialEq, Eq, Debug)]
pub struct UseItem {
    pub local: Name,
    pub original: Name,
    pub is_rename: bool,
}

/// A USE statement.
#[derive(Drop)]
pub struct UseOutline {
    pub module: Name,
    pub has_only: bool,
    /// Its renames and only-names in the order written.
    pub items: Vec<UseItem>,
}

/// What an entity is.
#[derive(Clone, Copy, PartialEq, Eq, Debug)]
pub enum EntityKind {
    Constant,
    Variable,
    DerivedType,
    Subroutine,
    Function,
}

/// A declaration of a name in a scope; its place is that of the name.
#[derive(Drop)]
pub struct Declared {
    pub name: Name,
    pub kind: EntityKind,
    /// The access attributes of its declaration, in the order written.
    pub accesses: Vec<Accessibility>,
    /// Whether its declaration has PROTECTED.
    pub is_protected: bool,
    /// The intents of its declaration, in the order written.
    pub intents: Vec<Intent>,
}

/// PUBLIC or PRIVATE as a statement.
#[derive(Drop)]
pub struct AccessOutline {
    /// Its keyword.
    pub place: Place,
    pub accessibility: Accessibility,
    /// The names of its list; none where it has no list.
    pub names: Vec<Name>,
}

/// A derived type's components, for the rules on components declared twice or given two accesses.
#[derive(Drop)]
pub struct Component {
    pub name: Name,
    pub accesses: Vec<Accessibility>,
}

/// The outline of a scope.
#[derive(Drop)]
pub struct Outline {
    pub kind: ScopeKind,
    /// Of a construct, which has no name, its first associate name; where it has none, what stands here of the scope
    /// around.
    pub name: Name,
    /// Of a procedure the number of its module among the scopes; of a construct that of the scope directly around it.
    pub host: Option<usize>,
    /// The USE statements in the order written.
    pub uses: Vec<UseOutline>,
    /// The names declared here, in order of place: declared names and types; of a module, also its procedures; of a
    /// function whose prefix has a type, also its result; of a construct, its associate names.
    pub declared: Vec<Declared>,
    /// Of a procedure, the dummy arguments in its header, in the order written.
    pub dummies: Vec<Name>,
    /// Of a function, the name behind RESULT.
    pub outcome: Option<Name>,
    /// Of a function, the name of its result: behind RESULT, or its own.
    pub result: Option<Name>,
    /// Whether a prefix types the result.
    pub is_typed: bool,
    /// The access statements in the order written.
    pub accesses: Vec<AccessOutline>,
    /// The names to which PUBLIC and PRIVATE, as statements and as attributes, give an access, in the order written and
    /// each time that they do.
    pub given: Vec<Name>,
    /// The places of the access attributes of declarations and types, in the order written.
    pub access_attributes: Vec<Place>,
    /// The names of PROTECTED statements, in the order written.
    pub protects: Vec<Name>,
    /// The types defined here, each with its components in the order written.
    pub types: Vec<Vec<Component>>,
    /// The names referred to in the specification part and the header, in the order written: in bounds, initializers,
    /// TYPE(n) and FINAL.
    pub references: Vec<Name>,
}
