//! Frames of callers, and the activation of a procedure.

ghost use Rattle.std.specs.Prelude.{◌≡◌, ◌<◌, ◌^◌, ◌++◌, suc, Some, IfOk, OnOk, length, map, slice_get};
ghost use Rattle.f3_program.specs.declared.program.Program.{Program};
ghost use Rattle.f3_meaning_whole.specs.Value as m;
ghost use Rattle.f3_meaning_whole.specs.Exec as x;
ghost use Rattle.f3_data.specs.Lent.{lent_of};
ghost use Rattle.f3_cells.specs.Cells.{here_of, passed_of, variables_of};
ghost use Rattle.f3_call_steps.specs.Inner.Entering.{Framed, EnteredAt};

use crate::activations::{enter, variables};
use crate::arguments::{dummies, held};
use crate::heres::within_procedure;
use f3_cells::cell::{Here, Passed};
use f3_cells::state::{Frame, State};
use f3_places::source::Place;
use f3_program::program::{Procedure, Program};
use std::alloc::{AllocError, Global};
use std::mem::replace;

/// Within a procedure of a number that is called with these arguments, whose held values stand on a level (ISO/IEC 1539-1:2004, 12.4).
///
/// `AllocError` where the host has no memory for it.
pub fn activation(
    alloc: Global,
    outer: &Here,
    number: usize,
    procedure: &Procedure,
    arguments: &[Passed],
    level: usize,
    place: Place,
) -> Result<Here, AllocError>
    requires levels { level < 2 ^ 63 }
    requires arguments { length arguments.now < 2 ^ 63 }
    ensures { IfOk result (λ h. (p : Program) → here_of p h ≡ record {
      place = place;
      unit = procedure.now.unit;
      level = suc level;
      variables = variables_of p (Some number);
      names = x.dummies 0 procedure.now.dummies.items (map passed_of arguments.now) level outer.now.unit;
      lent = x.dummies 0 procedure.now.dummies.items (map passed_of arguments.now) level outer.now.unit ++ lent_of outer.now.lent;
      selected = m.Unallocated;
    }) }
{
    let names = dummies(alloc, &procedure.dummies, arguments, level, outer.unit)?;
    within_procedure(
        alloc,
        outer,
        place,
        procedure.unit,
        level + 1,
        number,
        names,
    )
}

/// One more frame, and on within a procedure at its first line.
fn push_frame(
    alloc: Global,
    state: &mut State,
    inner: Here,
    line: usize,
    arguments: Vec<Passed>,
    level: usize,
    place: Place,
) -> Result<(), AllocError>
    requires { state.old.pc < 2 ^ 63 }
    ensures { OnOk result (Framed inner line arguments.items level place state.old state.new) }
{
    let stack = replace(&mut state.stack, Vec::new(alloc));
    let here = replace(&mut state.here, inner);
    state.frames.push(Frame {
        pc: state.pc + 1,
        stack,
        here,
        caller: place,
        arguments,
        level,
    })?;
    state.pc = line;
    Ok(())
}

/// A procedure of a number, whose code begins at a line, is entered with these arguments (ISO/IEC 1539-1:2004, 12.4).
pub(crate) fn enter_procedure(
    alloc: Global,
    program: &Program,
    state: &mut State,
    number: usize,
    procedure: &Procedure,
    line: usize,
    arguments: Vec<Passed>,
    place: Place,
) -> Result<(), AllocError>
    requires lines { state.old.pc < 2 ^ 63 }
    requires procedure { slice_get program.now.procedures.items number ≡ Some procedure.now }
    ensures { OnOk result (EnteredAt program.now procedure.now line arguments.items place state.old state.new) }
{
    let level = state.store.levels.len();
    let inner = activation(
        alloc,
        &state.here,
        number,
        procedure,
        &arguments,
        level,
        place,
    )?;
    let held = held(alloc, &arguments)?;
    let begun = variables(alloc, program, procedure)?;
    enter(&mut state.store, held, begun)?;
    push_frame(alloc, state, inner, line, arguments, level, place)
}
