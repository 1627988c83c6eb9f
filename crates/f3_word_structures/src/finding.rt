//! Values that stand on top as arguments.

ghost use Rattle.std.specs.Prelude.{◌≡◌, [], ◌∷◌, MatchOption, None, Some};
ghost use Rattle.f3_word_structures.specs.Members.{given_in};

use f3_word_cells::cell::{Cell, Datum, Passed};

/// The value of an argument, if it has a number.
fn value_for(cell: &Cell, number: usize) -> Option<&Datum>
    ensures { MatchOption result (given_in number (cell.now ∷ []) ≡ None) (λ d. given_in number (cell.now ∷ []) ≡ Some d.now) }
{
    let Cell::Argument(Passed::Given(place, datum)) = cell else {
        return None;
    };
    if *place == number {
        return Some(datum);
    }
    None
}

/// The value that is the first argument of a number, if there is one.
pub(crate) fn given(cells: &[Cell], number: usize) -> Option<&Datum>
    ensures { MatchOption result (given_in number cells.now ≡ None) (λ d. given_in number cells.now ≡ Some d.now) }
{
    for cell in cells {
        if let Some(datum) = value_for(cell, number) {
            return Some(datum);
        }
    }
    None
}
