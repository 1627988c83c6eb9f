//! What names mean.

ghost use Rattle.std.specs.Prelude.{◌≡◌, ◌<◌, ◌≤◌, ◌^◌, ℕ, List, [], length, MatchOption, None, Some, slice_get};
ghost use Rattle.f3_code.specs.declared.instruction.Instruction.TheVariants as i;
ghost use Rattle.f3_live_blocks.specs.Blocks.{Live};
ghost use Rattle.f3_meaning_whole.specs.Exec.{declared_in};
ghost use Rattle.f3_program.specs.declared.declarations.Declared as d;
ghost use Rattle.f3_room_places.specs.Places.{HasTables};
ghost use Rattle.f3_word_cells.specs.Areas.{types_of};
ghost use Rattle.f3_word_cells.specs.Does.{DoesIn, Keeps};
ghost use Rattle.f3_word_cells.specs.Scenes.{IsFrame, IsScene};
ghost use Rattle.f3_word_cells.specs.States.{statics_of};
ghost use Rattle.f3_word_cells.specs.Ranks.{AreRanked, HasRank};
ghost use Rattle.f3_cells.specs.Cells.{variables_of};
ghost use Rattle.f3_word_objects.specs.Variables.{IsLent, IsLocal, IsLocalOf, IsNamed, IsNoLocal, IsProcedure, IsStatic, IsVariable};

use f3_heap::BlockId;
use f3_program::declarations::Declared;
use f3_program::expression::Name;
use f3_program::program::Procedure;
use f3_room_places::types::Types;
use f3_word_areas::copies::copied_object;
use f3_word_areas::parts::laid;
use f3_word_cells::cell::{Area, Cell, Object};
use f3_word_cells::scene::{Frame, Scene};
use f3_word_cells::state::{State, Stop};

/// A variable of a procedure, by its number: the result stands behind the others.
fn declared_of(procedure: &Procedure, number: usize) -> Option<&Declared>
    ensures { MatchOption result (slice_get (declared_in procedure.now) number ≡ None) (λ d. slice_get (declared_in procedure.now) number ≡ Some d.now) }
{
    if number < procedure.locals.len() {
        return Some(&procedure.locals[number]);
    }
    if number > procedure.locals.len() {
        return None;
    }
    procedure.result.as_ref()
}

/// The procedure whose variables are at hand, and how they stand.
fn procedure_at<'a>(scene: Scene<'a>, state: &State) -> Option<(&'a Procedure, &'a Frame)>
    requires scene { IsScene scene }
    requires ranks { AreRanked scene.program.now }
    ensures { MatchOption result (variables_of scene.entry.program.now state.now.here.procedure ≡ []) (λ r. IsProcedure scene.entry state.now r.0.now r.1.now) }
{
    let Some(number) = state.here.procedure else {
        return Some((&scene.program.main, scene.main));
    };
    if number >= scene.program.procedures.len() || number >= scene.procedures.len() {
        return None;
    }
    Some((&scene.program.procedures[number], &scene.procedures[number]))
}

/// A variable of a number among those of a frame, in a block.
fn variable(
    scene: Scene<'_>,
    frame: &Frame,
    declared: &Declared,
    block: BlockId,
    number: usize,
) -> Option<Area>
    requires scene { IsScene scene }
    requires few { HasRank declared.now }
    ensures { (ds : List d.Declared) → slice_get ds number ≡ Some declared.now → MatchOption result (slice_get frame.now.starts.items number ≡ None) (λ a. IsVariable scene.entry ds frame.now block number a) }
{
    let Some(start) = frame.starts.get(number) else {
        return None;
    };
    Some(laid(scene.types, declared, block, *start))
}

/// The block of a level.
fn block_of(state: &State, level: usize) -> Option<BlockId>
    ensures { MatchOption result ((n b : ℕ) → slice_get state.now.levels.items.items level ≡ Some n → slice_get state.now.blocks.items.items n ≡ Some b → ⊥)
        (λ b. (n : ℕ) × (slice_get state.now.levels.items.items level ≡ Some n) × (slice_get state.now.blocks.items.items n ≡ Some b)) }
{
    let Some(first) = state.levels.items.get(level) else {
        return None;
    };
    match state.blocks.items.get(*first) {
        Some(block) => Some(*block),
        None => None,
    }
}

/// A variable that lives for the whole run.
fn static_object(scene: Scene<'_>, state: &State, number: usize) -> Option<Object>
    requires scene { IsScene scene }
    requires ranks { AreRanked scene.program.now }
    ensures { IsStatic scene.entry state.now number result }
{
    let Some(found) = scene.program.statics.get(number) else {
        return None;
    };
    match variable(scene, scene.statics, &found.declared, state.statics, number) {
        Some(area) => Some(Object::Stands(area)),
        None => None,
    }
}

/// A variable of the activation, by its number: where it stands, and how it is declared.
pub fn local<'a>(scene: Scene<'a>, state: &State, number: usize) -> Option<(Area, &'a Declared)>
    requires scene { IsScene scene }
    requires ranks { AreRanked scene.program.now }
    ensures { MatchOption result (IsNoLocal scene.entry state.now number) (λ v. IsLocalOf scene.entry state.now number v.1.now v.0) }
{
    let Some((procedure, frame)) = procedure_at(scene, state) else {
        return None;
    };
    let Some(declared) = declared_of(procedure, number) else {
        return None;
    };
    let Some(block) = block_of(state, state.here.level) else {
        return None;
    };
    match variable(scene, frame, declared, block, number) {
        Some(area) => Some((area, declared)),
        None => None,
    }
}

/// A variable of the activation, as an object.
fn local_object(scene: Scene<'_>, state: &State, number: usize) -> Option<Object>
    requires scene { IsScene scene }
    requires ranks { AreRanked scene.program.now }
    ensures { IsLocal scene.entry state.now number result }
{
    match local(scene, state, number) {
        Some((area, _)) => Some(Object::Stands(area)),
        None => None,
    }
}

/// A dummy or an associate name.
fn lent_object(state: &State, number: usize) -> Option<Object>
    ensures { IsLent state.now number result }
{
    let names = state.here.names;
    let all = state.names.items.as_slice();
    if number >= names.count || number >= all.len().saturating_sub(names.from) {
        return None;
    }
    Some(copied_object(&all[names.from + number].object))
}

/// The object that a name means (ISO/IEC 1539-1:2004, 16.4).
fn named(scene: Scene<'_>, state: &State, name: Name) -> Option<Object>
    requires scene { IsScene scene }
    requires ranks { AreRanked scene.program.now }
    ensures { IsNamed scene.entry state.now name result }
{
    match name {
        Name::Static(number) => static_object(scene, state, number),
        Name::Local(number) => local_object(scene, state, number),
        Name::Lent(number) => lent_object(state, number),
    }
}

/// The object that a name means.
#[inline(never)]
pub fn refer(scene: Scene<'_>, state: &mut State, name: Name) -> Result<(), Stop>
    requires scene { IsScene scene }
    requires ranks { AreRanked scene.program.now }
    requires pc { state.old.pc < 2 ^ 63 }
    requires room { length state.old.cells.items.items < state.old.cells.room }
    requires bottom { state.old.base ≤ length state.old.cells.items.items }
    ensures does { (live : Live) → DoesIn scene.entry.program.now (i.Refer name) result live live state.old state.new }
    ensures keeps { Keeps state.old state.new }
{
    match named(scene, state, name) {
        Some(object) => {
            state.go_on_with(Cell::Object(object));
            Ok(())
        }
        None => Err(Stop::Lost),
    }
}
