//! Components are located.

ghost use Rattle.std.specs.Prelude.{◌≡◌, ◌<◌, ◌≤◌, ◌^◌, length};
ghost use Rattle.f3_code.specs.declared.instruction.Instruction.TheVariants as i;
ghost use Rattle.f3_live_blocks.specs.Blocks.{Live};
ghost use Rattle.f3_room_places.specs.Places.{HasTables};
ghost use Rattle.f3_word_cells.specs.Does.{DoesIn, Keeps};
ghost use Rattle.f3_word_cells.specs.Scenes.{IsScene};
ghost use Rattle.f3_word_objects.specs.Each.{IsBeside};
ghost use Rattle.f3_word_objects.specs.Parts.{Located};
ghost use Rattle.f3_word_cells.specs.Ranks.{AreRanked, AreShort, ComponentsHaveRanks};

use crate::taking::pop_object;
use f3_room_places::types::Types;
use f3_word_areas::copies::copied;
use f3_word_areas::parts::{component_of, part};
use f3_word_cells::cell::{Cell, Object};
use f3_word_cells::scene::Scene;
use f3_word_cells::state::{State, Stop};

/// The component of a number of an object, or of each element of an array (ISO/IEC 1539-1:2004, 6.1.2).
fn located(types: Types<'_>, object: &Object, number: usize) -> Option<Object>
    requires tables { HasTables types }
    requires ranks { ComponentsHaveRanks types.derived.now }
    ensures { Located types.entry number object.now result }
{
    let Object::Stands(area) = object else {
        return None;
    };
    let Some((declared, offset)) = component_of(types, area.of, number) else {
        return None;
    };
    Some(Object::Stands(part(types, area, declared, offset)))
}

/// The component of a number (6.1.2).
#[inline(never)]
pub fn component(scene: Scene<'_>, state: &mut State, number: usize) -> Result<(), Stop>
    requires scene { IsScene scene }
    requires ranks { AreRanked scene.program.now }
    requires pc { state.old.pc < 2 ^ 63 }
    requires room { length state.old.cells.items.items < state.old.cells.room }
    requires bottom { state.old.base ≤ length state.old.cells.items.items }
    ensures does { (live : Live) → AreShort live → DoesIn scene.entry.program.now (i.Component number) result live live state.old state.new }
    ensures keeps { Keeps state.old state.new }
{
    let Some(object) = pop_object(state) else {
        return Err(Stop::Lost);
    };
    let Some(part) = located(scene.types, &object, number) else {
        return Err(Stop::Lost);
    };
    state.go_on_with(Cell::Object(part));
    Ok(())
}

/// The component of a number of an object, as a cell: of an array, it is that of each element.
fn beside(types: Types<'_>, object: &Object, number: usize) -> Option<Cell>
    requires tables { HasTables types }
    requires ranks { ComponentsHaveRanks types.derived.now }
    ensures { IsBeside types.entry number object.now result }
{
    if let Object::Stands(area) = object {
        if !area.elements.dims.is_empty() {
            return Some(Cell::Each(copied(area), number));
        }
    }
    match located(types, object, number) {
        Some(part) => Some(Cell::Object(part)),
        None => None,
    }
}

/// The component of a number, and the object stays beneath; elements of the component are selected next.
#[inline(never)]
pub fn component_beside(scene: Scene<'_>, state: &mut State, number: usize) -> Result<(), Stop>
    requires scene { IsScene scene }
    requires ranks { AreRanked scene.program.now }
    requires pc { state.old.pc < 2 ^ 63 }
    requires room { length state.old.cells.items.items < state.old.cells.room }
    requires bottom { state.old.base ≤ length state.old.cells.items.items }
    ensures does { (live : Live) → AreShort live → DoesIn scene.entry.program.now (i.ComponentOf number) result live live state.old state.new }
    ensures keeps { Keeps state.old state.new }
{
    let Some(object) = pop_object(state) else {
        return Err(Stop::Lost);
    };
    let Some(part) = beside(scene.types, &object, number) else {
        return Err(Stop::Lost);
    };
    state.push(Cell::Object(object));
    state.go_on_with(part);
    Ok(())
}
