//! What stands on top of a stack, and what it holds.

ghost use Rattle.std.specs.Prelude.{◌≡◌, ◌%◌, ◌^◌, ◌∷◌, [], take};
ghost use Rattle.f3_program.specs.declared.program.Program.{Program};
ghost use Rattle.f3_cells.specs.Cells.{cells_of};
ghost use Rattle.f3_requests.specs.Inner.Counted.{held_words};

use f3_cells::cell::{Cell, Passed};
use f3_data::account::words;

/// So many cells on top, or as many as there are.
pub(crate) fn top(stack: &[Cell], count: usize) -> &[Cell]
    ensures { (p : Program) → cells_of p result.now ≡ take count (cells_of p stack.now) }
{
    &stack[stack.len().saturating_sub(count)..]
}

/// The words of the value that a cell is as an argument, modulo 2 to the 64.
fn value_words(cell: &Cell) -> u64
    ensures { result ≡ held_words (cell.now ∷ []) % 2 ^ 64 }
{
    match cell {
        Cell::Argument(Passed::Given(_, value)) => words(value),
        _ => 0,
    }
}

/// The words of the values among arguments (ISO/IEC 1539-1:2004, 12.4.1), modulo 2 to the 64.
pub(crate) fn given_words(cells: &[Cell]) -> u64
    ensures { result ≡ held_words cells.now % 2 ^ 64 }
{
    let mut total: u64 = 0;
    for cell in cells {
        total = total.wrapping_add(value_words(cell));
    }
    total
}
