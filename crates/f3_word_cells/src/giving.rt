//! Blocks of values that go away.

ghost use Rattle.std.specs.Prelude.{◌≡◌};
ghost use Rattle.f3_rooms.specs.Laws.{without};
ghost use Rattle.f3_word_cells.specs.Free.{AreFree};
ghost use Rattle.f3_word_cells.specs.States.{cell_blocks, datum_blocks};

use crate::cell::{Association, Cell, Datum, Passed};
use f3_heap::Blocks;

/// The block of a value is given back, if it has one.
pub fn let_go_datum<B: Blocks>(heap: &mut B, datum: Datum)
    requires { AreFree (B.blocks heap.old) (datum_blocks datum) }
    ensures given { B.blocks heap.new ≡ without (datum_blocks datum) (B.blocks heap.old) }
    ensures kept { B.kept heap.new ≡ B.kept heap.old }
{
    match datum {
        Datum::Scalar(_) => {}
        Datum::Block(area) => {
            let _given = heap.give(area.elements.block);
        }
    }
}

/// The block of a cell's value is given back, if it has one.
pub fn let_go<B: Blocks>(heap: &mut B, cell: Cell)
    requires { AreFree (B.blocks heap.old) (cell_blocks cell) }
    ensures given { B.blocks heap.new ≡ without (cell_blocks cell) (B.blocks heap.old) }
    ensures kept { B.kept heap.new ≡ B.kept heap.old }
{
    match cell {
        Cell::Datum(datum) => let_go_datum(heap, datum),
        Cell::Argument(Passed::Given(_, datum)) => let_go_datum(heap, datum),
        Cell::Selector(Association::Holds(_, datum)) => let_go_datum(heap, datum),
        _ => {}
    }
}
