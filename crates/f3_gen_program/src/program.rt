//! The code of a program.

ghost use Rattle.std.specs.Prelude.{◌≡◌, IfOk};
ghost use Rattle.f3_code.specs.Lower.{lowered_program};
ghost use Rattle.f3_code.specs.Code.{program_code};
ghost use Rattle.f3_gen_values.specs.Emission.{code_in};

use crate::places::places;
use crate::procedures::emit_procedures;
use f3_gen_procedures::body::emit_main;
use f3_gen_procedures::routines::emit_routines;
use f3_gen_values::emission::Emission;
use f3_gen_work::types::Types;
use f3_program::program::Program;
use std::alloc::{AllocError, Global};

/// The code of a program, which is that of its Core: what the statements say, and what the language does beside it (2.2.1).
///
/// `AllocError` where memory runs out.
pub fn emit_program(alloc: Global, program: &Program) -> Result<Emission, AllocError>
    ensures { IfOk result (λ e. code_in program.now e ≡ program_code (lowered_program program.now)) }
{
    let mut lines = Vec::new(alloc);
    let mut procedure_ends = Vec::new(alloc);
    let mut routine_ends = Vec::new(alloc);
    let types = Types::of(alloc, &program.types)?;
    emit_procedures(&mut lines, &mut procedure_ends, &types, &program.procedures)?;
    emit_routines(&mut lines, &mut routine_ends, &types)?;
    emit_main(&mut lines, &types, &program.main)?;
    let procedures = places(alloc, lines.len(), &procedure_ends)?;
    let routines = places(alloc, lines.len(), &routine_ends)?;
    lines.reverse();
    Ok(Emission {
        lines,
        procedures,
        routines,
    })
}
