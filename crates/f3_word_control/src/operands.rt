//! Cells of one kind, taken from the top.

ghost use Rattle.f3_word_cells.specs.declared.cell.Cell.TheVariants as c;
ghost use Rattle.f3_word_cells.specs.Does.{Keeps};
ghost use Rattle.f3_word_control.specs.Operands.{Took, scalar_cell, turns_cell};

use arrayvec::ArrayVec;
use f3_cells::cell::Flow;
use f3_desc::descriptor::Dim;
use f3_program::declarations::Constant;
use f3_word_cells::cell::{Cell, Datum, Here};
use f3_word_cells::state::State;

/// The value on top, which is taken, if one is there.
pub fn pop_datum(state: &mut State) -> Option<Datum>
    ensures taken { Took c.Datum result state.old state.new }
    ensures keeps { Keeps state.old state.new }
{
    match state.pop() {
        Some(Cell::Datum(datum)) => Some(datum),
        _ => None,
    }
}

/// The scalar on top, which is taken, if one is there.
pub fn pop_scalar(state: &mut State) -> Option<Constant>
    ensures taken { Took scalar_cell result state.old state.new }
    ensures keeps { Keeps state.old state.new }
{
    match state.pop() {
        Some(Cell::Datum(Datum::Scalar(scalar))) => Some(scalar),
        _ => None,
    }
}

/// The turns of a DO on top, which are taken, if they are there: how many follow the first, if there is one, and the step.
pub fn pop_turns(state: &mut State) -> Option<(Option<u64>, i64)>
    ensures taken { Took turns_cell result state.old state.new }
    ensures keeps { Keeps state.old state.new }
{
    match state.pop() {
        Some(Cell::Turns(turns, step)) => Some((turns, step)),
        _ => None,
    }
}

/// What was around a construct, which is taken from the top, if it is there.
pub fn pop_outside(state: &mut State) -> Option<Here>
    ensures taken { Took c.Outside result state.old state.new }
    ensures keeps { Keeps state.old state.new }
{
    match state.pop() {
        Some(Cell::Outside(here)) => Some(here),
        _ => None,
    }
}

/// How a construct was left, which is taken from the top, if it is there.
pub fn pop_going(state: &mut State) -> Option<Flow>
    ensures taken { Took c.Going result state.old state.new }
    ensures keeps { Keeps state.old state.new }
{
    match state.pop() {
        Some(Cell::Going(flow)) => Some(flow),
        _ => None,
    }
}

/// A bound of a triplet on top, which is taken, if one is there.
pub fn pop_bound(state: &mut State) -> Option<Option<i64>>
    ensures taken { Took c.Bound result state.old state.new }
    ensures keeps { Keeps state.old state.new }
{
    match state.pop() {
        Some(Cell::Bound(bound)) => Some(bound),
        _ => None,
    }
}

/// The bounds of an array on top, which are taken, if they are there.
pub fn pop_bounds(state: &mut State) -> Option<ArrayVec<Dim, 7>>
    ensures taken { Took c.Bounds result state.old state.new }
    ensures keeps { Keeps state.old state.new }
{
    match state.pop() {
        Some(Cell::Bounds(dims)) => Some(dims),
        _ => None,
    }
}
