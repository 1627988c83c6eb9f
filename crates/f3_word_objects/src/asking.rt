//! Objects are asked for their bounds, and passed on.

ghost use Rattle.std.specs.Prelude.{◌≡◌, ◌<◌, ◌≤◌, ◌^◌, length};
ghost use Rattle.f3_code.specs.declared.instruction.Instruction.TheVariants as i;
ghost use Rattle.f3_word_cells.specs.Does.{Does, Keeps};

use crate::taking::pop_object;
use arrayvec::ArrayVec;
use f3_word_areas::bounds::shown;
use f3_word_cells::cell::{Association, Cell, Object, Passed};
use f3_word_cells::state::{State, Stop};

/// The bounds of an object (ISO/IEC 1539-1:2004, 13.7.60, 13.7.125).
#[inline(never)]
pub fn bounds_of_variable(state: &mut State) -> Result<(), Stop>
    requires pc { state.old.pc < 2 ^ 63 }
    requires room { length state.old.cells.items.items < state.old.cells.room }
    requires bottom { state.old.base ≤ length state.old.cells.items.items }
    ensures does { Does i.BoundsOfVariable result state.old state.new }
    ensures keeps { Keeps state.old state.new }
{
    let Some(object) = pop_object(state) else {
        return Err(Stop::Lost);
    };
    let dims = match &object {
        Object::Held(_, _) => ArrayVec::new(),
        Object::Stands(area) => shown(&area.elements.dims),
    };
    state.go_on_with(Cell::Bounds(dims));
    Ok(())
}

/// An object that is an argument with its number (12.4.1.2).
#[inline(never)]
pub fn pass_variable(state: &mut State, number: usize) -> Result<(), Stop>
    requires pc { state.old.pc < 2 ^ 63 }
    requires room { length state.old.cells.items.items < state.old.cells.room }
    requires bottom { state.old.base ≤ length state.old.cells.items.items }
    ensures does { Does (i.PassVariable number) result state.old state.new }
    ensures keeps { Keeps state.old state.new }
{
    let Some(object) = pop_object(state) else {
        return Err(Stop::Lost);
    };
    state.go_on_with(Cell::Argument(Passed::Lent(number, object)));
    Ok(())
}

/// An object for which an associate name is (8.1.4.3).
#[inline(never)]
pub fn select_variable(state: &mut State) -> Result<(), Stop>
    requires pc { state.old.pc < 2 ^ 63 }
    requires room { length state.old.cells.items.items < state.old.cells.room }
    requires bottom { state.old.base ≤ length state.old.cells.items.items }
    ensures does { Does i.SelectVariable result state.old state.new }
    ensures keeps { Keeps state.old state.new }
{
    let Some(object) = pop_object(state) else {
        return Err(Stop::Lost);
    };
    state.go_on_with(Cell::Selector(Association::Means(object)));
    Ok(())
}
