//! Blocks of values that become those of a level.

ghost use Rattle.std.specs.Prelude.{◌≡◌, ◌+◌, ◌≤◌, ◌++◌, length};
ghost use Rattle.std.specs.Option.{option_to_list};
ghost use Rattle.f3_word_cells.specs.States.{cell_blocks, cells_blocks, datum_blocks};
ghost use Rattle.f3_word_entries.specs.Ranked.{AreRanked, IsRanked, IsRankedCell};

use f3_heap::BlockId;
use f3_word_cells::cell::{Association, Cell, Datum, Passed};
use f3_word_cells::stack::Stack;

/// The block of a value, if it has one.
fn block_of_datum(datum: &Datum) -> Option<BlockId>
    ensures block { option_to_list result ≡ datum_blocks datum.now }
    ensures ranked { IsRanked datum.now }
{
    match datum {
        Datum::Scalar(_) => None,
        Datum::Block(area) => {
            prove!(area.elements.dims.len() <= 7);
            Some(area.elements.block)
        }
    }
}

/// The block of a cell's value, if it has one.
fn block_of(cell: &Cell) -> Option<BlockId>
    ensures block { option_to_list result ≡ cell_blocks cell.now }
    ensures ranked { IsRankedCell cell.now }
{
    match cell {
        Cell::Datum(datum) => block_of_datum(datum),
        Cell::Argument(Passed::Given(_, datum)) => block_of_datum(datum),
        Cell::Selector(Association::Holds(_, datum)) => block_of_datum(datum),
        _ => None,
    }
}

/// The blocks of the values of cells become the last ones, in their order.
pub(crate) fn hold(blocks: &mut Stack<BlockId>, cells: &[Cell])
    requires { length blocks.old.items.items + length cells.now ≤ blocks.old.room }
    ensures blocks { blocks.new.items.items ≡ blocks.old.items.items ++ cells_blocks cells.now }
    ensures ranked { AreRanked cells.now }
    ensures room { blocks.new.room ≡ blocks.old.room }
{
    let Some((cell, others)) = cells.split_first() else {
        return;
    };
    if let Some(block) = block_of(cell) {
        blocks.push(block);
    }
    hold(blocks, others);
}
