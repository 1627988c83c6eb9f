//! The code of the routines of types.

ghost use Rattle.std.specs.Prelude.{◌≡◌, ◌++◌, length, reverse, OnOk};
ghost use Rattle.f3_code.specs.Lower.{routines};
ghost use Rattle.f3_code.specs.Code.{routines_code};
ghost use Rattle.f3_gen_values.specs.Emitted.{Emitted};
ghost use Rattle.f3_gen_procedures.specs.Ends.{routine_ends};

use f3_code::instruction::Instruction;
use f3_gen_values::line::{Line, put};
use f3_gen_work::types::Types;
use f3_gen_work::work::emit_routine;
use std::alloc::AllocError;

/// The routines of types, that of the newest first (4.5.5.1), and how many lines there are from each to the end, that of the
/// oldest first.
pub fn emit_routines(
    code: &mut Vec<Line>,
    ends: &mut Vec<usize>,
    types: &Types<'_>,
) -> Result<(), AllocError>
    ensures emitted { OnOk result (Emitted code.old.items code.new.items (routines_code (routines types.now))) }
    ensures ended { OnOk result (ends.new.items ≡ ends.old.items ++ reverse (routine_ends (length code.old.items) (routines types.now))) }
{
    for (number, of) in types.items().iter().enumerate() {
        put(code, None, Instruction::Back)?;
        emit_routine(code, types, number, &of.components)?;
        ends.push(code.len())?;
    }
    Ok(())
}
