//! The code of the procedures of a program.

ghost use Rattle.std.specs.Prelude.{◌≡◌, ◌++◌, length, map, reverse, OnOk};
ghost use Rattle.f3_meaning_whole.specs.Act.{Setting};
ghost use Rattle.f3_code.specs.Lower.{lowered_procedure};
ghost use Rattle.f3_code.specs.Code.{procedures_code};
ghost use Rattle.f3_gen_procedures.specs.Ends.{procedure_ends};
ghost use Rattle.f3_gen_work.specs.EmittedIn.{EmittedIn};

use f3_gen_procedures::body::emit_procedure;
use f3_gen_values::line::Line;
use f3_gen_work::types::Types;
use f3_program::program::Procedure;
use std::alloc::AllocError;

/// The procedures of a program in their order (12.5.2), and how many lines there are from each to the end, that of the last
/// first.
pub fn emit_procedures(
    code: &mut Vec<Line>,
    ends: &mut Vec<usize>,
    types: &Types<'_>,
    procedures: &[Procedure],
) -> Result<(), AllocError>
    ensures emitted { OnOk result (EmittedIn types.now code.old.items code.new.items
        (λ g. procedures_code (length types.now) (map (lowered_procedure g) procedures.now))) }
    ensures ended { OnOk result ((g : Setting) → g.program.types.items ≡ types.now → ends.new.items ≡ ends.old.items
        ++ reverse (procedure_ends (length types.now) (length code.old.items) (map (lowered_procedure g) procedures.now))) }
{
    let mut i = procedures.len();
    while i > 0 {
        i -= 1;
        emit_procedure(code, types, &procedures[i])?;
        ends.push(code.len())?;
    }
    Ok(())
}
