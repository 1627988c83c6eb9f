//! Values that stand on top as arguments.

ghost use Rattle.std.specs.Prelude.{◌≡◌, ◌++◌, ◌∷◌, [], ℕ, List, Some};
ghost use Rattle.f3_word_cells.specs.declared.cell.Cell as cell;
ghost use Rattle.f3_word_cells.specs.declared.cell.Cell.TheVariants as c;
ghost use Rattle.f3_word_cells.specs.declared.cell.Datum as datum;
ghost use Rattle.f3_word_cells.specs.declared.cell.Passed.TheVariants as passed;
ghost use Rattle.f3_word_cells.specs.Does.{Keeps};
ghost use Rattle.f3_word_arrays.specs.Items.{TookItem, base_of};

use f3_program::declarations::{Base, Constant};
use f3_word_cells::cell::{Cell, Datum, Passed};
use f3_word_cells::state::State;

/// A type whose values are as this one is.
fn base_of(datum: &Datum) -> Base
    ensures { result ≡ base_of datum.now }
{
    match datum {
        Datum::Scalar(Constant::Number(_)) => Base::Integer,
        Datum::Scalar(Constant::Truth(_)) => Base::Logical,
        Datum::Block(area) => area.of,
    }
}

/// The type of the value that is the last cell, as an argument, if it is one.
pub(crate) fn base_on_top(cells: &[Cell]) -> Option<Base>
    ensures { (front : List cell.Cell) (number : ℕ) (d : datum.Datum) → cells.now ≡ front ++ c.Argument (passed.Given number d) ∷ [] → result ≡ Some (base_of d) }
{
    if cells.is_empty() {
        return None;
    }
    match &cells[cells.len() - 1] {
        Cell::Argument(Passed::Given(_, datum)) => Some(base_of(datum)),
        _ => None,
    }
}

/// The value that is the argument on top, which is taken, if one is there.
pub(crate) fn pop_item(state: &mut State) -> Option<Datum>
    ensures taken { TookItem result state.old state.new }
    ensures keeps { Keeps state.old state.new }
{
    match state.pop() {
        Some(Cell::Argument(Passed::Given(_, datum))) => Some(datum),
        _ => None,
    }
}
