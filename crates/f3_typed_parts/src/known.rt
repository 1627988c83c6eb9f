//! What is known of names.

use f3_access::table::Tables;
use f3_kinds::said::Given;
use f3_kinds::things::{Intrinsic, Thing};
use f3_kinds::types::Scalar;
use f3_tree::expression::Name;

/// What is known of the names of a program.
#[derive(Drop)]
pub struct Known<'a> {
    /// What each scope sees.
    pub tables: &'a Tables,
    /// What each entity is, by its number.
    pub things: Vec<Thing>,
    /// The intrinsic procedure of each name, by the number of the name.
    pub intrinsics: Vec<Option<Intrinsic>>,
    /// The names of the dummies FROM and TO of MOVE_ALLOC.
    pub moving: (usize, usize),
    /// The values of the named constants that may be used, by their entities.
    pub values: Vec<Option<Scalar>>,
}

/// Where an expression stands.
#[derive(Clone, Copy)]
pub struct Position {
    pub scope: usize,
    /// The scope of the unit that holds it.
    pub unit: usize,
    /// 5 in a specification part, 6 in an executable statement.
    pub phase: u32,
}

/// A part of a designator, and what is said of what stands in the parentheses behind it.
#[derive(Drop)]
pub struct Part {
    pub name: Name,
    pub given: Option<Vec<Given>>,
}
