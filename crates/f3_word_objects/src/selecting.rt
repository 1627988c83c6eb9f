//! Elements and sections are selected.

ghost use Rattle.std.specs.Prelude.{◌≡◌, ◌<◌, ◌≤◌, ◌^◌, ◌++◌, ◌∷◌, List, Some, length, map, IfSome};
ghost use Rattle.f3_cells.specs.Cells.{chosen_of};
ghost use Rattle.f3_code.specs.declared.instruction.Instruction.TheVariants as i;
ghost use Rattle.f3_live_blocks.specs.Blocks.{Live};
ghost use Rattle.f3_meaning_whole.specs.Shape.{spans_declared};
ghost use Rattle.f3_program.specs.declared.program.Program as program;
ghost use Rattle.f3_word_cells.specs.declared.cell.Cell as cell;
ghost use Rattle.f3_word_cells.specs.declared.cell.Cell.TheVariants as c;
ghost use Rattle.f3_word_cells.specs.declared.cell.Object as o;
ghost use Rattle.f3_word_cells.specs.Does.{DoesIn, Keeps};
ghost use Rattle.f3_word_objects.specs.Each.{AreSingle, IsNumber, IsPlaceIn, PicksIn, PicksOfEach, span_declared};
ghost use Rattle.f3_word_objects.specs.Picks.{Picks};
ghost use Rattle.f3_room_places.specs.Places.{HasTables};
ghost use Rattle.f3_word_cells.specs.Scenes.{IsScene};
ghost use Rattle.f3_word_cells.specs.Ranks.{AreRanked, AreShort, ComponentsHaveRanks};
ghost use Rattle.f3_word_objects.specs.Shapes.{dims_of};

use crate::shapes::dims_of;
use crate::taking::{pop_choices, pop_object};
use f3_cells::cell::Chosen;
use f3_desc::descriptor::SectionFault;
use f3_meaning_whole::run_error::RunError;
use f3_program::declarations::Dimension;
use f3_room_places::types::{Types, words};
use f3_word_areas::parts::{component_of, part};
use f3_word_areas::sections::section;
use f3_word_cells::cell::{Area, Cell, Object};
use f3_word_cells::scene::Scene;
use f3_word_cells::state::{State, Stop};

/// The place of a subscript among those of a dimension, counted from 0.
fn place_in(dimension: Dimension, choice: Chosen) -> Option<usize>
    ensures { IsPlaceIn (span_declared dimension) (chosen_of choice) result }
{
    let Chosen::At(subscript) = choice else {
        return None;
    };
    let from = dimension.lower as i128;
    let place = subscript as i128 - from;
    if place < 0 || place >= dimension.extent as i128 {
        return None;
    }
    Some(place as usize)
}

/// How many dimensions the object beneath so many cells has, if one is there.
fn rank_beneath(cells: &[Cell], count: usize) -> Option<usize>
    ensures few { IfSome result (λ n. n ≤ 7) }
    ensures is { (front behind : List cell.Cell) (z : o.Object) → cells.now ≡ front ++ c.Object z ∷ behind → length behind ≡ count → result ≡ Some (length (dims_of z)) }
{
    if count >= cells.len() {
        return None;
    }
    match &cells[cells.len() - 1 - count] {
        Cell::Object(object) => Some(dims_of(object).len()),
        _ => None,
    }
}

/// An element or a section of an array (ISO/IEC 1539-1:2004, 6.2.2). A step of zero is found before a subscript out of bounds (own rules).
fn picked(object: &Object, chosen: &[Chosen]) -> Result<Object, Stop>
    ensures { Picks object.now (map chosen_of chosen.now) result }
{
    let Object::Stands(area) = object else {
        return Err(Stop::Lost);
    };
    if area.elements.dims.len() != chosen.len() {
        return Err(Stop::Lost);
    }
    match section(&area.elements, chosen) {
        Ok(elements) => Ok(Object::Stands(Area {
            elements,
            of: area.of,
        })),
        Err(SectionFault::StepZero) => Err(Stop::Failed(RunError::StepIsZero)),
        Err(SectionFault::Bounds) => Err(Stop::Failed(RunError::SubscriptOutOfBounds)),
    }
}

/// An element or a section by so many subscripts and triplets. No program without allocatables selects of what an allocatable holds.
#[inline(never)]
pub fn select(state: &mut State, is_opened: bool, count: usize) -> Result<(), Stop>
    requires pc { state.old.pc < 2 ^ 63 }
    requires room { length state.old.cells.items.items < state.old.cells.room }
    requires bottom { state.old.base ≤ length state.old.cells.items.items }
    ensures does { (p : program.Program) (live : Live) → AreShort live → DoesIn p (i.Select is_opened count) result live live state.old state.new }
    ensures keeps { Keeps state.old state.new }
{
    let Some(rank) = rank_beneath(state.cells.items.as_slice(), count) else {
        return Err(Stop::Lost);
    };
    if is_opened || rank != count {
        return Err(Stop::Lost);
    }
    let Some(chosen) = pop_choices(state, count) else {
        return Err(Stop::Lost);
    };
    let Some(object) = pop_object(state) else {
        return Err(Stop::Lost);
    };
    match picked(&object, &chosen[..count]) {
        Ok(part) => {
            state.go_on_with(Cell::Object(part));
            Ok(())
        }
        Err(stop) => Err(stop),
    }
}

/// The number of the element with these subscripts among the elements of an array, counted from 0, the first dimension fastest (6.2.2.2). It is
/// told up to a multiple of 2 ^ 64.
fn number_of(dimensions: &[Dimension], chosen: &[Chosen]) -> Option<usize>
    ensures { AreSingle (map chosen_of chosen.now) → IsNumber (spans_declared dimensions.now) (map chosen_of chosen.now) result }
{
    let Some((dimension, others)) = dimensions.split_first() else {
        return Some(0);
    };
    let Some((choice, rest)) = chosen.split_first() else {
        return Some(0);
    };
    let place = place_in(*dimension, *choice)?;
    let behind = number_of(others, rest)?;
    Some(place.wrapping_add((dimension.extent as usize).wrapping_mul(behind)))
}

/// An element, by one subscript for each dimension, of the component of a number of each element of an array.
fn picked_of_each(
    types: Types<'_>,
    area: &Area,
    number: usize,
    chosen: &[Chosen],
) -> Result<Object, Stop>
    requires tables { HasTables types }
    requires ranks { ComponentsHaveRanks types.derived.now }
    ensures { AreSingle (map chosen_of chosen.now) → PicksOfEach types.entry area.now number (map chosen_of chosen.now) result }
{
    let Some((declared, offset)) = component_of(types, area.of, number) else {
        return Err(Stop::Lost);
    };
    let Some(element) = number_of(&declared.dimensions, chosen) else {
        return Err(Stop::Failed(RunError::SubscriptOutOfBounds));
    };
    let at = offset.wrapping_add(element.wrapping_mul(words(types, declared.kind.of)));
    Ok(Object::Stands(part(types, area, declared, at)))
}

/// What is picked of the cell beneath the subscripts and triplets.
fn picked_in(types: Types<'_>, part: &Cell, chosen: &[Chosen]) -> Result<Object, Stop>
    requires tables { HasTables types }
    requires ranks { ComponentsHaveRanks types.derived.now }
    ensures { PicksIn types.entry part.now (map chosen_of chosen.now) result }
{
    match part {
        Cell::Object(object) => picked(object, chosen),
        Cell::Each(area, number) => picked_of_each(types, area, *number, chosen),
        _ => Err(Stop::Lost),
    }
}

/// Elements of a component by so many subscripts and triplets; the object of which it is a component is beneath, and goes.
#[inline(never)]
pub fn select_of(
    scene: Scene<'_>,
    state: &mut State,
    is_opened: bool,
    number: usize,
    count: usize,
) -> Result<(), Stop>
    requires scene { IsScene scene }
    requires ranks { AreRanked scene.program.now }
    requires pc { state.old.pc < 2 ^ 63 }
    requires room { length state.old.cells.items.items < state.old.cells.room }
    requires bottom { state.old.base ≤ length state.old.cells.items.items }
    ensures does { (live : Live) → AreShort live → DoesIn scene.entry.program.now (i.SelectOf is_opened number count) result live live state.old state.new }
    ensures keeps { Keeps state.old state.new }
{
    if is_opened || count > 7 {
        return Err(Stop::Lost);
    }
    let Some(chosen) = pop_choices(state, count) else {
        return Err(Stop::Lost);
    };
    let Some(part) = state.pop() else {
        return Err(Stop::Lost);
    };
    let Some(_whole) = pop_object(state) else {
        return Err(Stop::Lost);
    };
    match picked_in(scene.types, &part, &chosen[..count]) {
        Ok(object) => {
            state.go_on_with(Cell::Object(object));
            Ok(())
        }
        Err(stop) => Err(stop),
    }
}
