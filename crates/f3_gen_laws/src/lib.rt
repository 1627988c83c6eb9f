//! The code of programs, and that it does what they mean.
#![tactic(auto)]

ghost use Rattle.std.specs.Prelude.{◌≡◌, ℕ, Bool, IfOk};
ghost use Rattle.f3_meaning_whole.specs.Run.{run_of};
ghost use Rattle.f3_code.specs.Lower.{lowered_program};
ghost use Rattle.f3_code.specs.Code.{program_code};
ghost use Rattle.f3_code.specs.Run.{Does, after};
ghost use Rattle.f3_gen_values.specs.Emission.{code_in};

use f3_gen_program::program::emit_program;
use f3_gen_values::emission::Emission;
use f3_program::program::Program;
use std::alloc::{AllocError, Global};

/// The code of a program: a machine that runs it does what the program means, both ways: the same bytes, changes of objects,
/// stages, levels and requests in one order, and the same end, whatever the bound on turns of loops and whatever the heap
/// answers (own rule).
///
/// `AllocError` where memory runs out.
pub fn generate(alloc: Global, program: &Program) -> Result<Emission, AllocError>
    ensures code { IfOk result (λ e. code_in program.now e ≡ program_code (lowered_program program.now)) }
    ensures meaning { IfOk result (λ e. (answers : ℕ → Bool) →
        Does (after 1000 (lowered_program program.now) (code_in program.now e) answers) (λ n. run_of program.now n answers)) }
{
    emit_program(alloc, program)
}
