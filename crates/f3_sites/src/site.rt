//! Where an executable statement stands.

use f3_type_rules::definition::Holder;
use f3_typed_parts::known::{Known, Position};
use indexmap::IndexMap;

/// The chain of an associate name: its own entity, and the links of its selector's chain (8.1.4.3).
#[derive(Drop)]
pub struct Chain {
    /// Entities, from the name on to what its selector begins with.
    pub links: Vec<usize>,
    /// Whether it ends at a variable.
    pub ends: bool,
}

/// Where an executable statement stands, and what is known there.
#[derive(Drop)]
pub struct Site<'a> {
    pub known: Known<'a>,
    pub at: Position,
    /// The scope of its procedure or program.
    pub body: usize,
    /// Whether that is PURE or a function.
    pub is_pure: bool,
    /// The DO variables of the loops around it, from the outermost on.
    pub active: Vec<usize>,
    /// By entity what the rules on definitions ask; nothing of associate names of the constructs around it.
    pub holders: Vec<Option<Holder>>,
    /// The chains of the associate names of the constructs around it, by their entities, from the outermost on. Of all else the
    /// chain is the entity alone.
    pub chains: IndexMap<usize, Chain>,
}
