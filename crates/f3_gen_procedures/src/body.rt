//! The code of a procedure and of the main program.

ghost use Rattle.std.specs.Prelude.{◌≡◌, ◌∷◌, ◌++◌, [], length, OnOk};
ghost use Rattle.f3_meaning_whole.specs.Act.{Setting};
ghost use Rattle.f3_code.specs.Lower.{lowered, lowered_main, lowered_procedure, result_number as number_of_result};
ghost use Rattle.f3_code.specs.Code.{body_code, body_ways, code_of, last_code, main_code};
ghost use Rattle.f3_code.specs.State.{line};
ghost use Rattle.f3_gen_work.specs.EmittedIn.{EmittedIn};

use crate::ends::{emit_beginnings, emit_finishes, emit_held_arguments};
use f3_code::instruction::Instruction;
use f3_gen_statements::site::{Exits, Site};
use f3_gen_statements::statement::emit_statement;
use f3_gen_values::line::{Line, put};
use f3_gen_work::types::Types;
use f3_program::program::Procedure;
use std::alloc::AllocError;

/// The number of a function's result among the variables: it stands behind the others (12.5.2.1).
fn result_number(procedure: &Procedure) -> Option<usize>
    ensures { (g : Setting) → result ≡ number_of_result g procedure.now.result (length procedure.now.locals.items) }
{
    match &procedure.result {
        Some(_) => Some(procedure.locals.len()),
        None => None,
    }
}

/// The end of a procedure: its variables end, and it goes back to where it was called, with its result (12.5.2.4).
fn emit_last(
    code: &mut Vec<Line>,
    types: &Types<'_>,
    procedure: &Procedure,
) -> Result<(), AllocError>
    ensures { OnOk result (EmittedIn types.now code.old.items code.new.items (λ g. last_code (length types.now) (lowered_procedure g procedure.now))) }
{
    put(code, None, Instruction::Return)?;
    emit_held_arguments(code, &procedure.dummies)?;
    put(code, None, Instruction::Outward)?;
    put(code, None, Instruction::ResultOf(result_number(procedure)))?;
    emit_finishes(code, types, &procedure.locals)
}

/// The statements of a procedure, and its END: a RETURN leads behind that (12.5.2.4).
fn emit_statements(
    code: &mut Vec<Line>,
    types: &Types<'_>,
    procedure: &Procedure,
) -> Result<(), AllocError>
    ensures { OnOk result (EmittedIn types.now code.old.items code.new.items (λ g.
        code_of (length types.now) None (lowered g procedure.now.body) body_ways
        ++ (line (Some procedure.now.end) Instruction.Begin ∷ line (Some procedure.now.end) Instruction.SetPlace
        ∷ last_code (length types.now) (lowered_procedure g procedure.now)))) }
{
    emit_last(code, types, procedure)?;
    let end = Some(procedure.end);
    let ret = code.len();
    put(code, end, Instruction::SetPlace)?;
    let cycle = code.len();
    put(code, end, Instruction::Begin)?;
    let exits = Exits {
        cycle,
        exit: cycle,
        ret,
        cells: 0,
    };
    let site = Site {
        types,
        place: None,
        exits,
    };
    emit_statement(code, site, &procedure.body)
}

/// A procedure: what its dummies ask for, its statements, and its end (12.5.2).
pub fn emit_procedure(
    code: &mut Vec<Line>,
    types: &Types<'_>,
    procedure: &Procedure,
) -> Result<(), AllocError>
    ensures { OnOk result (EmittedIn types.now code.old.items code.new.items (λ g. body_code (length types.now) (lowered_procedure g procedure.now))) }
{
    emit_statements(code, types, procedure)?;
    put(code, None, Instruction::Drop)?;
    emit_beginnings(code, types, &procedure.dummies)?;
    put(code, None, Instruction::Dummies)
}

/// The main program, with its END (11.1).
pub fn emit_main(
    code: &mut Vec<Line>,
    types: &Types<'_>,
    main: &Procedure,
) -> Result<(), AllocError>
    ensures { OnOk result (EmittedIn types.now code.old.items code.new.items (λ g. main_code (length types.now) (lowered_main g main.now))) }
{
    put(code, None, Instruction::Finish)?;
    put(code, Some(main.end), Instruction::Begin)?;
    let behind = code.len();
    let exits = Exits {
        cycle: behind,
        exit: behind,
        ret: behind,
        cells: 0,
    };
    let site = Site {
        types,
        place: None,
        exits,
    };
    emit_statement(code, site, &main.body)
}
