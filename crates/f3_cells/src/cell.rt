//! What stands on the stack of an activation.

use f3_data::lent::Lent;
use f3_data::reference::Reference;
use f3_data::value::{Span, Value};
use f3_meaning_whole::run_error::RunError;
use f3_places::source::Place;
use f3_program::declarations::Base;

/// An argument with its number: a value, or an object (ISO/IEC 1539-1:2004, 12.4.1.2).
#[derive(Drop)]
pub enum Passed {
    Given(usize, Value),
    Lent(usize, Reference),
}

/// A subscript, or a triplet whose bounds may be absent (6.2.2).
#[derive(Clone, Copy, PartialEq, Eq, Debug)]
pub enum Chosen {
    At(i64),
    Range(Option<i64>, Option<i64>, i64),
}

/// What an associate name is for: a value of a type that is held, or an object (8.1.4.3).
#[derive(Drop)]
pub enum Association {
    Holds(Base, Value),
    Means(Reference),
}

/// How a statement is left: a RETURN tells its place.
#[derive(Clone, Copy, PartialEq, Eq, Debug)]
pub enum Flow {
    Onward,
    Cycled,
    Left,
    Returned(Place),
}

/// Where a statement is executed: its place, its unit, the level of its activation, the procedure whose variables are at
/// hand (none: the main program), the objects of dummies and associate names in their order, all that is lent, and the value
/// of the SELECT CASE around it.
#[derive(Drop)]
pub struct Here {
    pub place: Place,
    pub unit: usize,
    pub level: usize,
    pub procedure: Option<usize>,
    pub names: Vec<Reference>,
    pub lent: Lent,
    pub selected: Value,
}

/// A cell of the stack.
#[derive(Drop)]
pub enum Cell {
    Datum(Value),
    Object(Reference),
    Argument(Passed),
    Choice(Chosen),
    /// A bound of a triplet.
    Bound(Option<i64>),
    /// The bounds of an array.
    Bounds(Vec<Span>),
    /// A dimension of an ALLOCATE: its lower bound, and of its subscripts how many follow the first, if there is one.
    Extent(i64, Option<u64>),
    /// How an ALLOCATE or DEALLOCATE ended.
    Status(Option<RunError>),
    /// Of the turns of a DO that are left, how many follow the first, if there is one; and its step.
    Turns(Option<u64>, i64),
    /// The elements of an object from a number on.
    Elements(Reference, usize),
    /// The objects that are left, the next one at the end.
    Objects(Vec<Reference>),
    /// Where a routine goes back to, and the place of the activation there.
    To(usize, Place),
    Selector(Association),
    /// The level of the values that an ASSOCIATE holds, and its objects.
    Level(usize, Vec<Reference>),
    /// What was around the SELECT CASE or ASSOCIATE.
    Outside(Here),
    /// How it was left.
    Going(Flow),
}
