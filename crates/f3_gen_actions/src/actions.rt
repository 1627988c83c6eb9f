//! The code of assignment, CALL and MOVE_ALLOC.

ghost use Rattle.std.specs.Prelude.{◌∷◌, [], ◌++◌, length, OnOk};
ghost use Rattle.f3_code.specs.Lower.{assigning, finish_work};
ghost use Rattle.f3_code.specs.State.{line};
ghost use Rattle.f3_code.specs.Code.{locate_code, transfer_code, value_code, work_code};
ghost use Rattle.f3_gen_values.specs.Emitted.{Emitted};
ghost use Rattle.f3_gen_work.specs.EmittedIn.{EmittedIn};
ghost use Rattle.f3_gen_actions.specs.Actions.{order_code};

use f3_code::instruction::Instruction;
use f3_gen_values::line::{Line, put};
use f3_gen_values::value::{emit_object, emit_value};
use f3_gen_work::transfer::emit_transfer;
use f3_gen_work::types::Types;
use f3_gen_work::work::emit_end;
use f3_places::source::Place;
use f3_program::declarations::Kind;
use f3_program::expression::{Designator, Expression};
use std::alloc::AllocError;

/// An assignment to a variable of a kind (7.4.1).
pub fn emit_assignment(
    code: &mut Vec<Line>,
    place: Option<Place>,
    types: &Types<'_>,
    variable: &Designator,
    kind: Kind,
    value: &Expression,
) -> Result<(), AllocError>
    ensures { OnOk result (EmittedIn types.now code.old.items code.new.items (λ g. value_code place value.now
        ++ (locate_code place variable.now ++ transfer_code (length types.now) place (assigning g kind)))) }
{
    emit_transfer(code, place, types, kind)?;
    emit_object(code, place, variable)?;
    emit_value(code, place, value)
}

/// What MOVE_ALLOC does, and where the second object is the one that it moves from, the two change places (13.7.82).
fn emit_moving(
    code: &mut Vec<Line>,
    place: Option<Place>,
    types: &Types<'_>,
    kind: Kind,
    is_from_first: bool,
) -> Result<(), AllocError>
    ensures { OnOk result (Emitted code.old.items code.new.items (order_code place is_from_first ++ (line place Instruction.LendBoth
        ∷ (work_code (length types.now) place (finish_work types.now (length types.now) kind) ++ line place Instruction.TakeOver ∷ [])))) }
{
    put(code, place, Instruction::TakeOver)?;
    emit_end(code, place, types, types.len(), kind)?;
    put(code, place, Instruction::LendBoth)?;
    if is_from_first {
        Ok(())
    } else {
        put(code, place, Instruction::Swap)
    }
}

/// A MOVE_ALLOC between objects of a kind, and whether the first is the one that it moves from (13.7.82).
pub fn emit_move(
    code: &mut Vec<Line>,
    place: Option<Place>,
    types: &Types<'_>,
    kind: Kind,
    is_from_first: bool,
    first: &Designator,
    second: &Designator,
) -> Result<(), AllocError>
    ensures { OnOk result (Emitted code.old.items code.new.items (locate_code place first.now ++ (locate_code place second.now
        ++ (order_code place is_from_first ++ (line place Instruction.LendBoth
        ∷ (work_code (length types.now) place (finish_work types.now (length types.now) kind) ++ line place Instruction.TakeOver ∷ [])))))) }
{
    emit_moving(code, place, types, kind, is_from_first)?;
    emit_object(code, place, second)?;
    emit_object(code, place, first)
}
