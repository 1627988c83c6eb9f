//! What stands on the stack of an activation.

use arrayvec::ArrayVec;
use f3_cells::cell::{Chosen, Flow};
use f3_desc::descriptor::{Descriptor, Dim};
use f3_places::source::Place;
use f3_program::declarations::{Base, Constant};

/// The objects of a type that words of a block are: one, where the descriptor has no dimension, or the elements of an array in array
/// element order (ISO/IEC 1539-1:2004, 6.2.2.2).
#[derive(Drop, Debug)]
pub struct Area {
    pub elements: Descriptor,
    pub of: Base,
}

/// A value: a scalar, or one of array or derived type, whose words are the first of a block that nothing else has.
#[derive(Drop, Debug)]
pub enum Datum {
    Scalar(Constant),
    Block(Area),
}

/// An object: a scalar that is held for a call or an ASSOCIATE, with its type, which may only be read (12.4.1.2, 8.1.4.3); or words of
/// variables.
#[derive(Drop, Debug)]
pub enum Object {
    Held(Base, Constant),
    Stands(Area),
}

/// An argument with its number: a value, or an object (12.4.1.2).
#[derive(Drop, Debug)]
pub enum Passed {
    Given(usize, Datum),
    Lent(usize, Object),
}

/// What an associate name is for: a value of a type that is held, or an object (8.1.4.3).
#[derive(Drop, Debug)]
pub enum Association {
    Holds(Base, Datum),
    Means(Object),
}

/// So many of the names of a state, from one on, counted from 0.
#[derive(Clone, Copy, PartialEq, Eq, Debug)]
pub struct Range {
    pub from: usize,
    pub count: usize,
}

/// Where a statement is executed: its place, its unit, the level of its activation, the procedure whose variables are at hand (none: the
/// main program), the dummies and associate names in their order, and the value of the SELECT CASE around it, if there is one.
#[derive(Clone, Copy, Debug)]
pub struct Here {
    pub place: Place,
    pub unit: usize,
    pub level: usize,
    pub procedure: Option<usize>,
    pub names: Range,
    pub selected: Option<Constant>,
}

/// A cell of the stack.
#[derive(Drop, Debug)]
pub enum Cell {
    Datum(Datum),
    Object(Object),
    /// The component of a number, counted from 0, of each element of an array, of which elements are selected (ISO/IEC 1539-1:2004, 6.1.2).
    Each(Area, usize),
    Argument(Passed),
    Choice(Chosen),
    /// A bound of a triplet.
    Bound(Option<i64>),
    /// The bounds of an array; the distances of its elements mean nothing.
    Bounds(ArrayVec<Dim, 7>),
    /// Of the turns of a DO that are left, how many follow the first, if there is one; and its step.
    Turns(Option<u64>, i64),
    /// The objects that are left.
    Objects(Range),
    Selector(Association),
    /// The level of the values that an ASSOCIATE holds, and its objects.
    Level(usize, Range),
    /// What was around the SELECT CASE or ASSOCIATE.
    Outside(Here),
    /// How it was left.
    Going(Flow),
}
