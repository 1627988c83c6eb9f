//! Objects that are lent, and routines.

ghost use Rattle.std.specs.Prelude.{◌≡◌, ◌<◌, ◌^◌, ℕ, length, nat_eq, MatchOption};
ghost use Rattle.f3_meaning_whole.specs.Value.{Value};
ghost use Rattle.f3_meaning_whole.specs.Reference.{spans};
ghost use Rattle.f3_code.specs.State.{Next};
ghost use Rattle.f3_code.specs.Machine.{routine_at};
ghost use Rattle.f3_data.specs.References.{reference_of};
ghost use Rattle.f3_code.specs.declared.instruction.Instruction.TheVariants.{Lend, LendBoth, Unlend, SkipUnlessRank, PassObject, Routine, Back};
ghost use Rattle.f3_cells.specs.Follows.{Does, DoesIn, DoesThere};

use f3_cells::cell::{Cell, Passed};
use f3_cells::look::object_at;
use f3_cells::scene::Scene;
use f3_cells::stacks::{pop_object, pop_to, push};
use f3_cells::state::{State, Stop};
use f3_data::reference::{Reach, Reference};
use f3_data::{copies, lent};
use f3_places::source::Place;
use std::alloc::Global;

/// The object is lent.
#[inline(never)]
pub fn lend(alloc: Global, state: &mut State) -> Result<(), Stop>
    requires { state.old.pc < 2 ^ 63 }
    ensures { Does Lend result state.old state.new }
{
    let Some(object) = object_at(&state.stack, 0) else {
        return Err(Stop::Stuck);
    };
    let object = copies::reference(alloc, object)?;
    lent::lend(alloc, &mut state.here.lent, object)?;
    state.advance();
    Ok(())
}

/// The two objects on top are lent (ISO/IEC 1539-1:2004, 13.7.82).
#[inline(never)]
pub fn lend_both(alloc: Global, state: &mut State) -> Result<(), Stop>
    requires { state.old.pc < 2 ^ 63 }
    ensures { Does LendBoth result state.old state.new }
{
    let Some(to) = object_at(&state.stack, 0) else {
        return Err(Stop::Stuck);
    };
    let Some(from) = object_at(&state.stack, 1) else {
        return Err(Stop::Stuck);
    };
    let first = copies::reference(alloc, from)?;
    let second = copies::reference(alloc, to)?;
    lent::lend(alloc, &mut state.here.lent, second)?;
    lent::lend(alloc, &mut state.here.lent, first)?;
    state.advance();
    Ok(())
}

/// The object that was lent last is lent no longer.
#[inline(never)]
pub fn unlend(state: &mut State) -> Result<(), Stop>
    requires { state.old.pc < 2 ^ 63 }
    ensures { Does Unlend result state.old state.new }
{
    lent::unlend(&mut state.here.lent)?;
    state.advance();
    Ok(())
}

/// Whether what a reference reaches has so many dimensions.
fn has_rank(object: &Reference, rank: usize) -> bool
    ensures { result ≡ nat_eq rank (length (spans (reference_of object.now).reach)) }
{
    match &object.reach {
        Reach::One => rank == 0,
        Reach::Many(section) => rank == section.spans.len(),
    }
}

/// So far on where the object is of another rank than this.
#[inline(never)]
pub fn skip_unless_rank(
    state: &mut State,
    rank: usize,
    distance: usize,
    total: usize,
) -> Result<(), Stop>
    requires { state.old.pc < 2 ^ 63 }
    ensures { DoesIn total (SkipUnlessRank rank distance) result state.old state.new }
{
    let Some(object) = object_at(&state.stack, 0) else {
        return Err(Stop::Stuck);
    };
    if has_rank(object, rank) {
        state.advance();
        Ok(())
    } else {
        state.ahead(distance, total)
    }
}

/// The object as an argument.
#[inline(never)]
pub fn pass_object(alloc: Global, state: &mut State) -> Result<(), Stop>
    requires { state.old.pc < 2 ^ 63 }
    ensures { Does PassObject result state.old state.new }
{
    let Some(object) = object_at(&state.stack, 0) else {
        return Err(Stop::Stuck);
    };
    let lent = copies::reference(alloc, object)?;
    state.go_on_with(Cell::Argument(Passed::Lent(0, lent)))
}

/// The line with which the routine of a type begins, by its number; the newest type's stands first.
fn routine_line(routines: &[usize], number: usize) -> Option<usize>
    ensures { (go : ℕ → Next) (none : Next) → MatchOption result (routine_at routines.now number go none ≡ none) (λ pc. routine_at routines.now number go none ≡ go pc) }
{
    let count = routines.len();
    if number < count {
        Some(routines[count - number - 1])
    } else {
        None
    }
}

/// The routine of a type, by its number, works on the object (4.5.5.1).
#[inline(never)]
pub fn routine(
    scene: &Scene<'_>,
    state: &mut State,
    number: usize,
    place: Place,
) -> Result<(), Stop>
    requires { state.old.pc < 2 ^ 63 }
    ensures { (v : Value) → DoesThere scene.now (Routine number) v place result state.old state.new }
{
    let Some(object) = pop_object(&mut state.stack) else {
        return Err(Stop::Stuck);
    };
    let Some(line) = routine_line(&scene.emission.routines, number) else {
        return state.go_on_with(Cell::Object(object));
    };
    push(&mut state.stack, Cell::To(state.pc + 1, state.here.place))?;
    push(&mut state.stack, Cell::Object(object))?;
    state.pc = line;
    state.here.place = place;
    Ok(())
}

/// Back from a routine (4.5.5.1).
#[inline(never)]
pub fn back(state: &mut State) -> Result<(), Stop>
    ensures { Does Back result state.old state.new }
{
    let Some(object) = pop_object(&mut state.stack) else {
        return Err(Stop::Stuck);
    };
    let Some((line, place)) = pop_to(&mut state.stack) else {
        return Err(Stop::Stuck);
    };
    push(&mut state.stack, Cell::Object(object))?;
    state.pc = line;
    state.here.place = place;
    Ok(())
}
