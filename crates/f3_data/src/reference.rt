//! References: how statements come to objects.

use crate::store::{Path, Step};
use crate::value::Span;
use f3_program::declarations::Base;

/// What may be done through a reference (ISO/IEC 1539-1:2004, 5.1.2.7, 5.1.2.12).
#[derive(Clone, Copy, PartialEq, Eq, Debug)]
pub enum Right {
    Define,
    Read,
}

/// Who selected a component: a statement of a unit, by its number, or the language where it destroys or deallocates.
#[derive(Clone, Copy, PartialEq, Eq, Debug)]
pub enum Maker {
    Selected(usize),
    Language,
}

/// A component that was selected: of an object of which type, by its number, and who did.
#[derive(Clone, Copy, PartialEq, Eq, Debug)]
pub struct Made {
    pub of: Base,
    pub component: usize,
    pub maker: Maker,
}

/// Elements of an array by their places in array element order, from 0 on: so many from the first on, or those of a list.
#[derive(Drop)]
pub enum Numbers {
    First(usize),
    Listed(Vec<usize>),
}

/// What a reference reaches: the object at its path, or of elements of the array there, with their bounds, a part, the same
/// of each.
#[derive(Drop)]
pub enum Reach {
    One,
    Many(Box<Section>),
}

/// Elements of an array with their bounds, and the steps from each to the part of it that is meant.
#[derive(Drop)]
pub struct Section {
    pub spans: Vec<Span>,
    pub numbers: Numbers,
    pub tail: Vec<Step>,
}

/// An object, what of it is meant, its type by the declarations on the way from the root, what may be done to it, the unit
/// whose statement named the root, and the components that were selected on the way.
#[derive(Drop)]
pub struct Reference {
    pub path: Path,
    pub reach: Reach,
    pub of: Base,
    pub right: Right,
    pub origin: usize,
    pub makers: Vec<Made>,
}
