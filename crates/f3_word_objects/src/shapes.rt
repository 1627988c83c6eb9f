//! Shapes of objects and of values.

ghost use Rattle.std.specs.Prelude.{◌≡◌, ◌<◌, ◌≤◌, ◌^◌, length};
ghost use Rattle.f3_code.specs.declared.instruction.Instruction.TheVariants as i;
ghost use Rattle.f3_meaning_whole.specs.Value.{same_extents};
ghost use Rattle.f3_word_cells.specs.Areas.{spans_of};
ghost use Rattle.f3_word_cells.specs.Does.{Does, Keeps};
ghost use Rattle.f3_word_objects.specs.Shapes.{dims_of, conforms_to};

use crate::taking::{pop_datum, pop_object};
use f3_desc::descriptor::Dim;
use f3_meaning_whole::run_error::RunError;
use f3_word_cells::cell::{Cell, Datum, Object};
use f3_word_cells::state::{State, Stop};

/// Whether arrays have the same shape (ISO/IEC 1539-1:2004, 2.4.5).
fn same_extents(left: &[Dim], right: &[Dim]) -> bool
    ensures { result ≡ same_extents (spans_of left.now) (spans_of right.now) }
{
    let Some((first, others)) = left.split_first() else {
        return right.is_empty();
    };
    let Some((second, rest)) = right.split_first() else {
        return false;
    };
    first.extent == second.extent && same_extents(others, rest)
}

/// The dimensions of an object.
pub(crate) fn dims_of(object: &Object) -> &[Dim]
    ensures dims { result.now ≡ dims_of object.now }
    ensures few { length result.now ≤ 7 }
{
    match object {
        Object::Held(_, _) => &[],
        Object::Stands(area) => area.elements.dims.as_slice(),
    }
}

/// Whether a value has the shape of an object, or is a scalar.
fn conforms(object: &Object, datum: &Datum) -> bool
    ensures { result ≡ conforms_to (dims_of object.now) datum.now }
{
    let Datum::Block(area) = datum else {
        return true;
    };
    area.elements.dims.is_empty() || same_extents(dims_of(object), area.elements.dims.as_slice())
}

/// An error where a value has another shape than the object on top (own rule for 7.4.1.2).
#[inline(never)]
pub fn test_shape(state: &mut State) -> Result<(), Stop>
    requires pc { state.old.pc < 2 ^ 63 }
    requires room { length state.old.cells.items.items < state.old.cells.room }
    requires bottom { state.old.base ≤ length state.old.cells.items.items }
    ensures does { Does i.TestShape result state.old state.new }
    ensures keeps { Keeps state.old state.new }
{
    let Some(object) = pop_object(state) else {
        return Err(Stop::Lost);
    };
    let Some(datum) = pop_datum(state) else {
        return Err(Stop::Lost);
    };
    if !conforms(&object, &datum) {
        return Err(Stop::Failed(RunError::ShapesDiffer));
    }
    state.push(Cell::Datum(datum));
    state.go_on_with(Cell::Object(object));
    Ok(())
}
