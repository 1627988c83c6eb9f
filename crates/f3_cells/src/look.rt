//! What stands on top, and stays there.

ghost use Rattle.std.specs.Prelude.{MatchOption};
ghost use Rattle.f3_data.specs.Values.{value_of};
ghost use Rattle.f3_data.specs.References.{reference_of, references_of};
ghost use Rattle.f3_code.specs.State as s;
ghost use Rattle.f3_code.specs.Machine.{on_datum, on_object, on_going, on_level};
ghost use Rattle.f3_cells.specs.Cells.{flow_of};
ghost use Rattle.f3_cells.specs.Popped.{HasCell, HasNone, Shows, ShowsNone, ShowsNoPair, Holds, HoldsNone, HoldsNoPair};

use crate::cell::{Cell, Flow};
use f3_data::reference::Reference;
use f3_data::value::Value;

/// The cell below so many others.
#[inline(always)]
pub fn cell_at(stack: &Vec<Cell>, depth: usize) -> Option<&Cell>
    ensures { MatchOption result (HasNone stack.now.items depth) (λ x. HasCell stack.now.items depth x.now) }
{
    if depth < stack.len() {
        Some(&stack[stack.len() - 1 - depth])
    } else {
        None
    }
}

/// The value in a cell.
fn datum_in(cell: &Cell) -> Option<&Value>
    ensures { MatchOption result (HoldsNone on_datum cell.now) (λ x. Holds cell.now (s.Datum (value_of x.now))) }
{
    match cell {
        Cell::Datum(it) => Some(it),
        _ => None,
    }
}

/// The value below so many cells.
pub fn datum_at(stack: &Vec<Cell>, depth: usize) -> Option<&Value>
    ensures { MatchOption result (ShowsNone on_datum stack.now.items depth) (λ x. Shows stack.now.items depth (s.Datum (value_of x.now))) }
{
    match cell_at(stack, depth) {
        Some(cell) => datum_in(cell),
        None => None,
    }
}

/// The object in a cell.
fn object_in(cell: &Cell) -> Option<&Reference>
    ensures { MatchOption result (HoldsNone on_object cell.now) (λ x. Holds cell.now (s.Object (reference_of x.now))) }
{
    match cell {
        Cell::Object(it) => Some(it),
        _ => None,
    }
}

/// The object below so many cells.
pub fn object_at(stack: &Vec<Cell>, depth: usize) -> Option<&Reference>
    ensures { MatchOption result (ShowsNone on_object stack.now.items depth) (λ x. Shows stack.now.items depth (s.Object (reference_of x.now))) }
{
    match cell_at(stack, depth) {
        Some(cell) => object_in(cell),
        None => None,
    }
}

/// How a construct was left, in a cell.
fn going_in(cell: &Cell) -> Option<Flow>
    ensures { MatchOption result (HoldsNone on_going cell.now) (λ x. Holds cell.now (s.Going (flow_of x))) }
{
    match cell {
        Cell::Going(it) => Some(*it),
        _ => None,
    }
}

/// How a construct was left, below so many cells.
pub fn going_at(stack: &Vec<Cell>, depth: usize) -> Option<Flow>
    ensures { MatchOption result (ShowsNone on_going stack.now.items depth) (λ x. Shows stack.now.items depth (s.Going (flow_of x))) }
{
    match cell_at(stack, depth) {
        Some(cell) => going_in(cell),
        None => None,
    }
}

/// The level of the values that an ASSOCIATE holds, and its objects, in a cell.
fn level_in(cell: &Cell) -> Option<(usize, &Vec<Reference>)>
    ensures { MatchOption result (HoldsNoPair on_level cell.now) (λ x. Holds cell.now (s.Level (x.0) (references_of (x.1).now.items))) }
{
    match cell {
        Cell::Level(level, objects) => Some((*level, objects)),
        _ => None,
    }
}

/// The level of the values that an ASSOCIATE holds, and its objects, below so many cells.
pub fn level_at(stack: &Vec<Cell>, depth: usize) -> Option<(usize, &Vec<Reference>)>
    ensures { MatchOption result (ShowsNoPair on_level stack.now.items depth) (λ x. Shows stack.now.items depth (s.Level (x.0) (references_of (x.1).now.items))) }
{
    match cell_at(stack, depth) {
        Some(cell) => level_in(cell),
        None => None,
    }
}
