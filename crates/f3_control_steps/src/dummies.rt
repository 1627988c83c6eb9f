//! Dummies and arguments, at the end of a procedure.

ghost use Rattle.std.specs.Prelude.{◌≡◌, ◌∷◌, ◌<◌, ◌^◌, ℕ, nat_eq, if◌then◌else◌, Some, List, [], map, drop, reverse, MatchOption};
ghost use Rattle.f3_program.specs.declared.program.Program.{Program};
ghost use Rattle.f3_meaning_whole.specs.Act as m;
ghost use Rattle.f3_meaning_whole.specs.Act.{passed_at};
ghost use Rattle.f3_code.specs.Exec.{is_held};
ghost use Rattle.f3_code.specs.declared.instruction.Instruction.TheVariants.{Dummies, Outward, NextArgument};
ghost use Rattle.f3_code.specs.Machine.{passed_in};
ghost use Rattle.f3_cells.specs.Cells.{passed_of};
ghost use Rattle.f3_cells.specs.States.{frame_of};
ghost use Rattle.f3_cells.specs.Follows.{Does, DoesIn};
ghost use Rattle.f3_control_steps.specs.Inner.Nexts.{HasLatest, HasNoFrame};

use crate::lists::{next_of, reversed};
use f3_cells::cell::{Cell, Passed};
use f3_cells::copies::here as copy_of_here;
use f3_cells::stacks::{pop_objects, push};
use f3_cells::state::{Frame, State, Stop};
use std::alloc::Global;
use std::mem;

/// The objects of the dummies.
#[inline(never)]
pub fn dummies(alloc: Global, state: &mut State) -> Result<(), Stop>
    requires { state.old.pc < 2 ^ 63 }
    ensures { Does Dummies result state.old state.new }
{
    let objects = reversed(alloc, &state.here.names)?;
    state.go_on_with(Cell::Objects(objects))
}

/// The frame of the latest call.
fn latest(frames: &Vec<Frame>) -> Option<&Frame>
    ensures { MatchOption result (HasNoFrame frames.now.items) (λ f. HasLatest frames.now.items f.now) }
{
    let count = frames.len();
    if count == 0 {
        None
    } else {
        Some(&frames[count - 1])
    }
}

/// Where the procedure was called, with the objects of its dummies.
#[inline(never)]
pub fn outward(alloc: Global, state: &mut State) -> Result<(), Stop>
    requires { state.old.pc < 2 ^ 63 }
    ensures { Does Outward result state.old state.new }
{
    let Some(frame) = latest(&state.frames) else {
        return Err(Stop::Stuck);
    };
    let mut outer = copy_of_here(alloc, &frame.here)?;
    outer.place = frame.caller;
    let objects = reversed(alloc, &state.here.names)?;
    drop(mem::replace(&mut state.here, outer));
    state.go_on_with(Cell::Objects(objects))
}

/// The number of an argument.
fn number_of(argument: &Passed) -> usize
    ensures { (ps : List m.Passed) (k : ℕ) → passed_at k (passed_of argument.now ∷ ps) ≡ (if nat_eq result k then Some (passed_of argument.now) else passed_at k ps) }
{
    match argument {
        Passed::Given(at, _) => *at,
        Passed::Lent(at, _) => *at,
    }
}

/// Whether an argument is a value.
fn is_value(argument: &Passed) -> bool
    ensures { result ≡ is_held (Some (passed_of argument.now)) }
{
    match argument {
        Passed::Given(_, _) => true,
        Passed::Lent(_, _) => false,
    }
}

/// Whether the argument of a number is a value that is held.
fn is_held(passed: &[Passed], number: usize) -> bool
    ensures { result ≡ is_held (passed_at number (map passed_of passed.now)) }
{
    for argument in passed {
        if number_of(argument) == number {
            return is_value(argument);
        }
    }
    false
}

/// Whether the argument of a number of the latest call is a value that is held.
pub fn is_argument_held(frames: &Vec<Frame>, number: usize) -> bool
    ensures { (p : Program) → result ≡ is_held (passed_at number (passed_in (map (frame_of p) (reverse frames.now.items)))) }
{
    match latest(frames) {
        Some(frame) => is_held(&frame.arguments, number),
        None => false,
    }
}

/// The next of some objects where the argument of a number is a held value, else so far on.
#[inline(never)]
pub fn next_argument(
    state: &mut State,
    number: usize,
    distance: usize,
    total: usize,
) -> Result<(), Stop>
    requires { state.old.pc < 2 ^ 63 }
    ensures { DoesIn total (NextArgument number distance) result state.old state.new }
{
    let Some(mut objects) = pop_objects(&mut state.stack) else {
        return Err(Stop::Stuck);
    };
    let Some(object) = next_of(&mut objects) else {
        return state.ahead_with(Cell::Objects(objects), distance, total);
    };
    if is_argument_held(&state.frames, number) {
        push(&mut state.stack, Cell::Objects(objects))?;
        state.go_on_with(Cell::Object(object))
    } else {
        drop(object);
        state.ahead_with(Cell::Objects(objects), distance, total)
    }
}
