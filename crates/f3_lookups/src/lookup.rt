//! What is visible under names.

/// An entity by its number: its place, from 0, among the declarations of all scopes, scope by scope.
pub type EntityId = usize;

/// A name of a scope, and an entity that it has there.
#[derive(Clone, Copy, PartialEq, Eq, Hash, Debug)]
pub struct Visible {
    /// The number of the name among the names of the program.
    pub symbol: usize,
    /// The number of the entity.
    pub entity: EntityId,
}

/// What is visible under a name.
#[derive(Clone, Copy, PartialEq, Eq, Debug)]
pub enum Lookup {
    /// One entity, by its number.
    One(EntityId),
    /// No entity.
    Nothing,
    /// Two entities or more.
    Several,
}
