//! Where statements stand.

use f3_gen_work::types::Types;
use f3_places::source::Place;

/// Where CYCLE, EXIT and RETURN lead: of each, how many lines there are from there to the end. And how many cells go at a
/// RETURN.
#[derive(Clone, Copy)]
pub struct Exits {
    pub cycle: usize,
    pub exit: usize,
    pub ret: usize,
    pub cells: usize,
}

/// What statements are emitted for: the types of the program, the place that errors tell, where that is not the
/// activation's, and the ways out.
#[derive(Clone, Copy)]
pub struct Site<'a> {
    pub types: &'a Types<'a>,
    pub place: Option<Place>,
    pub exits: Exits,
}
