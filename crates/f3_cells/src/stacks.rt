//! What stands on top.

ghost use Rattle.std.specs.Prelude.{◌≡◌, ◌∷◌, drop, MatchResult, reverse};
ghost use Rattle.f3_data.specs.Values.{value_of, spans_of};
ghost use Rattle.f3_data.specs.References.{reference_of, references_of};
ghost use Rattle.f3_arithmetic.specs.Turns.{turns_of};
ghost use Rattle.f3_meaning_whole.specs.Reference.{paths};
ghost use Rattle.f3_code.specs.State as s;
ghost use Rattle.f3_code.specs.Machine.{on_datum, on_object, on_bound, on_bounds, on_status, on_turns, on_objects, on_to, on_level, on_going, on_elements};
ghost use Rattle.f3_cells.specs.Cells.{flow_of, passed_of};
ghost use Rattle.f3_cells.specs.Popped.{Dropped, Pushed, Popped, PoppedCell, PoppedOutside, PoppedPair};

use crate::cell::{Cell, Flow, Here};
use crate::state::Stop;
use f3_data::reference::Reference;
use f3_data::value::{Span, Value};
use f3_meaning_whole::run_error::RunError;
use f3_places::source::Place;

/// The cell on top, which is taken.
pub fn pop_any(stack: &mut Vec<Cell>) -> Option<Cell>
    ensures { PoppedCell result stack.old.items stack.new.items }
{
    stack.pop()
}

/// One more cell on top.
#[inline(always)]
pub fn push(stack: &mut Vec<Cell>, cell: Cell) -> Result<(), Stop>
    ensures { MatchResult result (λ done. Pushed cell stack.old.items stack.new.items) (λ e. e ≡ Stop.Memory) }
{
    match stack.reserve(1) {
        Ok(()) => {
            stack.push_reserved(cell);
            Ok(())
        }
        Err(_) => {
            let_go(cell);
            Err(Stop::Memory)
        }
    }
}

/// So many cells go, or as many as there are.
pub fn drop_cells(stack: &mut Vec<Cell>, count: usize)
    ensures { Dropped count stack.old.items stack.new.items }
{
    stack.truncate(stack.len().saturating_sub(count));
}

/// A cell goes.
#[inline(never)]
pub fn let_go(cell: Cell) {
    drop(cell);
}

/// The cell on top goes, if there is one; a value without more ado.
#[inline(always)]
pub fn drop_top(stack: &mut Vec<Cell>)
    ensures { Dropped 1 stack.old.items stack.new.items }
{
    match stack.pop() {
        Some(Cell::Datum(value)) => drop(value),
        Some(other) => let_go(other),
        None => (),
    }
}

/// The value on top, which is taken.
pub fn pop_datum(stack: &mut Vec<Cell>) -> Option<Value>
    ensures { Popped (λ x. s.Datum (value_of x)) on_datum result stack.old.items stack.new.items }
{
    match stack.pop() {
        Some(Cell::Datum(it)) => Some(it),
        Some(other) => {
            let_go(other);
            None
        }
        None => None,
    }
}

/// The object on top, which is taken.
#[inline(always)]
pub fn pop_object(stack: &mut Vec<Cell>) -> Option<Reference>
    ensures { Popped (λ x. s.Object (reference_of x)) on_object result stack.old.items stack.new.items }
{
    match stack.pop() {
        Some(Cell::Object(it)) => Some(it),
        Some(other) => {
            let_go(other);
            None
        }
        None => None,
    }
}

/// The bound of a triplet on top, which is taken.
pub fn pop_bound(stack: &mut Vec<Cell>) -> Option<Option<i64>>
    ensures { Popped s.Bound on_bound result stack.old.items stack.new.items }
{
    match stack.pop() {
        Some(Cell::Bound(it)) => Some(it),
        Some(other) => {
            let_go(other);
            None
        }
        None => None,
    }
}

/// How an ALLOCATE or DEALLOCATE ended, which is taken.
pub fn pop_status(stack: &mut Vec<Cell>) -> Option<Option<RunError>>
    ensures { Popped s.Status on_status result stack.old.items stack.new.items }
{
    match stack.pop() {
        Some(Cell::Status(it)) => Some(it),
        Some(other) => {
            let_go(other);
            None
        }
        None => None,
    }
}

/// How a construct was left, which is taken.
pub fn pop_going(stack: &mut Vec<Cell>) -> Option<Flow>
    ensures { Popped (λ x. s.Going (flow_of x)) on_going result stack.old.items stack.new.items }
{
    match stack.pop() {
        Some(Cell::Going(it)) => Some(it),
        Some(other) => {
            let_go(other);
            None
        }
        None => None,
    }
}

/// The bounds of an array on top, which are taken.
pub fn pop_bounds(stack: &mut Vec<Cell>) -> Option<Vec<Span>>
    ensures { Popped (λ ss. s.Bounds (spans_of ss.items)) on_bounds result stack.old.items stack.new.items }
{
    match stack.pop() {
        Some(Cell::Bounds(it)) => Some(it),
        Some(other) => {
            let_go(other);
            None
        }
        None => None,
    }
}

/// The objects that are left, the next one at the end, which are taken.
#[inline(always)]
pub fn pop_objects(stack: &mut Vec<Cell>) -> Option<Vec<Reference>>
    ensures { Popped (λ rs. s.Objects (references_of (reverse rs.items))) on_objects result stack.old.items stack.new.items }
{
    match stack.pop() {
        Some(Cell::Objects(it)) => Some(it),
        Some(other) => {
            let_go(other);
            None
        }
        None => None,
    }
}

/// The turns of a DO that are left, and its step, which are taken.
pub fn pop_turns(stack: &mut Vec<Cell>) -> Option<(Option<u64>, i64)>
    ensures { PoppedPair (λ x. s.Turns (turns_of (x.0)) (x.1)) on_turns result stack.old.items stack.new.items }
{
    match stack.pop() {
        Some(Cell::Turns(turns, step)) => Some((turns, step)),
        Some(other) => {
            let_go(other);
            None
        }
        None => None,
    }
}

/// Where a routine goes back to, and the place there, which are taken.
pub fn pop_to(stack: &mut Vec<Cell>) -> Option<(usize, Place)>
    ensures { PoppedPair (λ x. s.To (x.0) (x.1)) on_to result stack.old.items stack.new.items }
{
    match stack.pop() {
        Some(Cell::To(line, place)) => Some((line, place)),
        Some(other) => {
            let_go(other);
            None
        }
        None => None,
    }
}

/// The level of the values that an ASSOCIATE holds, and its objects, which are taken.
pub fn pop_level(stack: &mut Vec<Cell>) -> Option<(usize, Vec<Reference>)>
    ensures { PoppedPair (λ x. s.Level (x.0) (references_of (x.1).items)) on_level result stack.old.items stack.new.items }
{
    match stack.pop() {
        Some(Cell::Level(level, objects)) => Some((level, objects)),
        Some(other) => {
            let_go(other);
            None
        }
        None => None,
    }
}

/// The elements of an object from a number on, which are taken.
pub fn pop_elements(stack: &mut Vec<Cell>) -> Option<(Reference, usize)>
    ensures { Popped (λ x. s.Elements (drop (x.1) (paths (reference_of (x.0))))) on_elements result stack.old.items stack.new.items }
{
    match stack.pop() {
        Some(Cell::Elements(object, number)) => Some((object, number)),
        Some(other) => {
            let_go(other);
            None
        }
        None => None,
    }
}

/// What was around a SELECT CASE or an ASSOCIATE, which is taken.
pub fn pop_outside(stack: &mut Vec<Cell>) -> Option<Here>
    ensures { PoppedOutside result stack.old.items stack.new.items }
{
    match stack.pop() {
        Some(Cell::Outside(it)) => Some(it),
        Some(other) => {
            let_go(other);
            None
        }
        None => None,
    }
}
