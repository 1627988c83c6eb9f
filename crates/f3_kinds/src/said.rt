//! What is said of an expression.

use crate::things::Component;
use crate::types::{DataType, Object};
use f3_places::source::Place;
use f3_tree::expression::Name;

/// What an expression is besides its value.
#[derive(Clone, Copy)]
pub enum Form {
    /// No variable and no named constant.
    Computed,
    /// A named constant.
    Constant,
    /// A variable, or a part of one: the entity of its first name.
    Variable(usize),
}

/// What an expression has that breaks no rule of phase 6.
#[derive(Clone, Copy)]
pub struct Has {
    /// None where TYPE(n) names no type.
    pub data_type: Option<DataType>,
    pub rank: usize,
    /// Whether it is a whole allocatable: a name, or a last component, without subscripts.
    pub is_allocatable: bool,
    pub form: Form,
}

/// What is said of an expression.
#[derive(Clone, Copy)]
pub struct Said {
    /// Its first token.
    pub place: Place,
    /// The identifier at its first token, where one stands there.
    pub lead: Option<usize>,
    /// None where it, or a part of it, breaks a rule of phase 6.
    pub has: Option<Has>,
    /// Whether each proper part of it has a type.
    pub are_parts_typed: bool,
}

/// What stands between two commas behind a name.
#[derive(Clone, Copy)]
pub enum Given {
    Value(Option<Name>, Said),
    Triplet(Place, Option<Said>, Option<Said>, Option<Said>),
}

/// What a designator is needed for.
#[derive(Clone, Copy)]
pub enum Role {
    /// Its value, or an argument.
    Expression,
    /// A variable.
    Variable,
    /// An object of ALLOCATE.
    Allocated,
    /// An object of DEALLOCATE.
    Deallocated,
}

/// What is reached after some parts of a designator.
#[derive(Clone, Copy)]
pub struct Reach {
    /// The last part.
    pub object: Object,
    /// Whether the subscripts so far are scalar integers.
    pub is_fit: bool,
    /// The rank of the parts so far.
    pub rank: usize,
    /// Whether two parts have a rank, or one that is allocatable stands behind one that has (own rule).
    pub offends: bool,
    /// Whether the last part is an allocatable as it was declared.
    pub is_allocatable: bool,
}

/// What a name behind `%` selects.
#[derive(Clone, Copy)]
pub enum Selected {
    /// What stands before it has no type.
    Unknown,
    Missing,
    /// A private component outside its module.
    Hidden,
    Component(Component),
}
