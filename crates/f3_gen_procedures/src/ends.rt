//! The code of what is done as a procedure begins and as it ends.

ghost use Rattle.std.specs.Prelude.{◌∷◌, [], length, map, OnOk};
ghost use Rattle.f3_program.specs.declared.declarations.Declared.{Declared};
ghost use Rattle.f3_program.specs.declared.program.Dummy.{Dummy};
ghost use Rattle.f3_code.specs.Lower.{discard_work, end_work, finish_work, out_work};
ghost use Rattle.f3_code.specs.Code.{begin_code, discard_code, finish_code};
ghost use Rattle.f3_gen_values.specs.Emitted.{Emitted};
ghost use Rattle.f3_gen_work.specs.EmittedIn.{EmittedIn};

use f3_code::instruction::Instruction;
use f3_gen_values::line::{Line, put};
use f3_gen_work::types::Types;
use f3_gen_work::work::{emit_discard, emit_end, emit_intent};
use f3_program::declarations::{Declared, Kind};
use f3_program::expression::Name;
use f3_program::program::Dummy;
use std::alloc::AllocError;

/// What the intent of a dummy asks for (12.4.1.7).
fn emit_beginning(code: &mut Vec<Line>, types: &Types<'_>, dummy: &Dummy) -> Result<(), AllocError>
    ensures { OnOk result (EmittedIn types.now code.old.items code.new.items (λ g. begin_code (length types.now) (out_work g dummy.now.intent dummy.now.kind ∷ []))) }
{
    let behind = code.len();
    put(code, None, Instruction::Drop)?;
    emit_intent(code, types, dummy.intent, dummy.kind)?;
    let within = code.len() - behind;
    put(code, None, Instruction::NextObject(within))
}

/// What the intents of dummies ask for, in their order (12.4.1.7).
pub fn emit_beginnings(
    code: &mut Vec<Line>,
    types: &Types<'_>,
    dummies: &[Dummy],
) -> Result<(), AllocError>
    ensures { OnOk result (EmittedIn types.now code.old.items code.new.items (λ g.
        begin_code (length types.now) (map (λ (d : Dummy). out_work g d.intent d.kind) dummies.now))) }
{
    let mut i = dummies.len();
    while i > 0 {
        i -= 1;
        emit_beginning(code, types, &dummies[i])?;
    }
    Ok(())
}

/// A variable of a kind, by its number, ends (4.5.5.2, 6.3.3.1).
fn emit_finish(
    code: &mut Vec<Line>,
    types: &Types<'_>,
    kind: Kind,
    number: usize,
) -> Result<(), AllocError>
    ensures { OnOk result (Emitted code.old.items code.new.items (finish_code (length types.now) number (finish_work types.now (length types.now) kind ∷ []))) }
{
    put(code, None, Instruction::Drop)?;
    emit_end(code, None, types, types.len(), kind)?;
    put(code, None, Instruction::Refer(Name::Local(number)))
}

/// Variables end in their order (4.5.5.2, 6.3.3.1).
pub fn emit_finishes(
    code: &mut Vec<Line>,
    types: &Types<'_>,
    locals: &[Declared],
) -> Result<(), AllocError>
    ensures { OnOk result (EmittedIn types.now code.old.items code.new.items (λ g.
        finish_code (length types.now) 0 (map (λ (d : Declared). end_work g d.kind) locals.now))) }
{
    let mut i = locals.len();
    while i > 0 {
        i -= 1;
        emit_finish(code, types, locals[i].kind, i)?;
    }
    Ok(())
}

/// A held value that is the argument of the dummy of a number ends (own rule for 12.4.1.2).
fn emit_held_argument(code: &mut Vec<Line>, kind: Kind, number: usize) -> Result<(), AllocError>
    ensures { OnOk result (Emitted code.old.items code.new.items (discard_code 0 number (discard_work kind ∷ []))) }
{
    let behind = code.len();
    put(code, None, Instruction::Drop)?;
    emit_discard(code, None, kind)?;
    let within = code.len() - behind;
    put(code, None, Instruction::NextArgument(number, within))
}

/// Held values that are arguments end, in the order of the dummies (own rule for 12.4.1.2).
pub fn emit_held_arguments(code: &mut Vec<Line>, dummies: &[Dummy]) -> Result<(), AllocError>
    ensures { OnOk result (Emitted code.old.items code.new.items (discard_code 0 0 (map (λ (d : Dummy). discard_work d.kind) dummies.now))) }
{
    let mut i = dummies.len();
    while i > 0 {
        i -= 1;
        emit_held_argument(code, dummies[i].kind, i)?;
    }
    Ok(())
}
