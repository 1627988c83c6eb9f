//! Bounds of arrays, as expressions ask for them.

ghost use Rattle.std.specs.Prelude.{◌≡◌, ◌<◌, ◌≤◌, ◌^◌, length};
ghost use Rattle.f3_code.specs.declared.instruction.Instruction.TheVariants.{BoundsOfValue, Size, Bound};
ghost use Rattle.f3_rooms.specs.Laws.{without};
ghost use Rattle.f3_word_cells.specs.Free.{AreFree};
ghost use Rattle.f3_word_cells.specs.States.{datum_blocks};
ghost use Rattle.f3_word_cells.specs.Does.{Does, Keeps};
ghost use Rattle.f3_word_control.specs.Doing.{DoesWith, IsAtSome};
ghost use Rattle.f3_word_values.specs.Ends.{dims_of};

use crate::bounds::{asked, size_of};
use crate::finish::finish;
use arrayvec::ArrayVec;
use f3_arithmetic::operators::number_of;
use f3_desc::descriptor::Dim;
use f3_heap::Blocks;
use f3_program::expression::Query;
use f3_word_cells::cell::{Cell, Datum};
use f3_word_cells::state::{State, Stop};
use f3_word_control::operands::{pop_bounds, pop_datum, pop_scalar};

/// The bounds of a value, whose block, if it has one, is given back.
fn bounds_taken<B: Blocks>(heap: &mut B, datum: Datum) -> ArrayVec<Dim, 7>
    requires { AreFree (B.blocks heap.old) (datum_blocks datum) }
    ensures bounds { result.items ≡ dims_of datum }
    ensures given { B.blocks heap.new ≡ without (datum_blocks datum) (B.blocks heap.old) }
    ensures kept { B.kept heap.new ≡ B.kept heap.old }
{
    match datum {
        Datum::Scalar(_) => ArrayVec::new(),
        Datum::Block(area) => {
            let _given = heap.give(area.elements.block);
            area.elements.dims
        }
    }
}

/// The bounds of a value, which goes (ISO/IEC 1539-1:2004, 13.7.60, 13.7.121).
#[inline(never)]
pub fn bounds_of_value<B: Blocks>(heap: &mut B, state: &mut State) -> Result<(), Stop>
    requires pc { state.old.pc < 2 ^ 63 }
    requires room { length state.old.cells.items.items < state.old.cells.room }
    requires bottom { state.old.base ≤ length state.old.cells.items.items }
    requires at { IsAtSome BoundsOfValue (B.blocks heap.old) state.old }
    ensures does { DoesWith BoundsOfValue result (B.blocks heap.old) (B.blocks heap.new) state.old state.new }
    ensures keeps { Keeps state.old state.new }
    ensures kept { B.kept heap.new ≡ B.kept heap.old }
{
    let Some(datum) = pop_datum(state) else {
        return Err(Stop::Lost);
    };
    let dims = bounds_taken(heap, datum);
    state.go_on_with(Cell::Bounds(dims));
    Ok(())
}

/// SIZE of an array (13.7.112), of default kind.
///
/// `Overflow` where the elements are more than the range holds (own rule).
#[inline(never)]
pub fn size(state: &mut State) -> Result<(), Stop>
    requires pc { state.old.pc < 2 ^ 63 }
    requires room { length state.old.cells.items.items < state.old.cells.room }
    requires bottom { state.old.base ≤ length state.old.cells.items.items }
    ensures does { Does Size result state.old state.new }
    ensures keeps { Keeps state.old state.new }
{
    let Some(dims) = pop_bounds(state) else {
        return Err(Stop::Lost);
    };
    finish(state, size_of(dims.as_slice()))
}

/// SIZE, LBOUND or UBOUND in a dimension (13.7.112, 13.7.60, 13.7.121), of default kind.
///
/// `SubscriptOutOfBounds` outside of the rank, `Overflow` past the range (own rules).
#[inline(never)]
pub fn bound(state: &mut State, query: Query) -> Result<(), Stop>
    requires pc { state.old.pc < 2 ^ 63 }
    requires room { length state.old.cells.items.items < state.old.cells.room }
    requires bottom { state.old.base ≤ length state.old.cells.items.items }
    ensures does { Does (Bound query) result state.old state.new }
    ensures keeps { Keeps state.old state.new }
{
    let Some(dimension) = pop_scalar(state) else {
        return Err(Stop::Lost);
    };
    let Some(dims) = pop_bounds(state) else {
        return Err(Stop::Lost);
    };
    finish(state, asked(query, dims.as_slice(), number_of(dimension)))
}
