//! What the entities of a program are.

use crate::types::Object;
use f3_tree::declaration::Intent;
use indexmap::IndexMap;

/// A component of a derived type (4.5.3).
#[derive(Clone, Copy)]
pub struct Component {
    pub object: Object,
    pub is_private: bool,
    /// Whether it has an initializer.
    pub is_initialized: bool,
}

/// A dummy argument (12.3.1).
#[derive(Clone, Copy)]
pub struct Dummy {
    pub object: Object,
    pub intent: Option<Intent>,
}

/// A derived type.
#[derive(Drop)]
pub struct TypeTable {
    /// The scope of the module that defines it.
    pub home: usize,
    /// The components by their names, in the order of their definition.
    pub components: IndexMap<usize, Component>,
    /// Whether a value of it is finalized somewhere (own rule).
    pub is_finalizable: bool,
}

/// What a call of a procedure needs.
#[derive(Drop)]
pub struct Signature {
    pub is_pure: bool,
    /// The dummies by their names, in the order of the header.
    pub dummies: IndexMap<usize, Dummy>,
}

/// An intrinsic procedure of the profile (13.7).
#[derive(Clone, Copy)]
pub enum Intrinsic {
    Abs,
    Mod,
    Modulo,
    Max,
    Min,
    Size,
    LowerBound,
    UpperBound,
    Allocated,
    MoveAlloc,
}

/// What an entity is.
#[derive(Drop)]
pub enum Thing {
    Constant(Object),
    Variable(Object),
    Type(TypeTable),
    Subroutine(Signature),
    Function(Signature, Object),
}
