//! From source bytes to output bytes.

ghost use Rattle.std.specs.Prelude.{◌≡◌};
ghost use Rattle.f3_code.specs.Lower.{lowered_program};
ghost use Rattle.f3_code.specs.Code.{program_code};
ghost use Rattle.f3_gen_values.specs.Emission.{code_in};
ghost use Rattle.f3_output.specs.Output.{state_of};
ghost use Rattle.f3_compile.specs.Compiled.{program_of};
ghost use Rattle.f3_run.specs.Answers.{Answers};
ghost use Rattle.f3_run.specs.Runs.{ChecksAndRuns};

use crate::end::{End, Limits};
use f3_cells::scene::Scene;
use f3_compile::compile::compile;
use f3_compile::compiled::Compiled;
use f3_gen_laws::generate;
use f3_gen_values::emission::Emission;
use f3_graph::CheckFault;
use f3_machine_laws::answers_mean;
use f3_machine_laws::ended::Ended;
use f3_output::output::Output;
use f3_places::source::Source;
use f3_program::program::Program;
use std::alloc::Global;
use std::io::Write;

/// Runs a program: its code is made, and a machine runs it into the output, over a heap of a size.
pub fn run<W: Write>(
    alloc: Global,
    compiled: &Compiled,
    limits: Limits,
    output: &mut Output<W>,
) -> End
    ensures { Answers (program_of compiled.now) limits (state_of W.contents output.old) (state_of W.contents output.new) result }
{
    let Ok(emission) = generate(alloc, &compiled.program) else {
        return End::Memory;
    };
    let end = run_code(alloc, &compiled.program, &emission, limits, output);
    drop(emission);
    end
}

/// Runs the code of a program.
fn run_code<W: Write>(
    alloc: Global,
    program: &Program,
    emission: &Emission,
    limits: Limits,
    output: &mut Output<W>,
) -> End
    requires { code_in program.now emission.now ≡ program_code (lowered_program program.now) }
    ensures { Answers program.now limits (state_of W.contents output.old) (state_of W.contents output.new) result }
{
    let scene = Scene { program, emission };
    let size = limits.heap_words as u64;
    let ended = f3_machine::machine::run(alloc, &scene, limits.steps, size, output);
    answers_mean();
    match ended {
        Ended::Done => End::Done,
        Ended::Stopped(number) => End::Stopped(number),
        Ended::Failed(error, place) => End::Error { error, place },
        Ended::StepLimit => End::StepLimit,
        Ended::WriteFault => End::WriteFault,
        Ended::Memory => End::Memory,
        Ended::Stuck => unreachable!(),
    }
}

/// Compiles and runs: the answers of `compile` where it refuses, with nothing written, and else those of `run`.
pub fn check_and_run<W: Write>(
    alloc: Global,
    sources: &[Source],
    limits: Limits,
    output: &mut Output<W>,
) -> Result<End, CheckFault>
    ensures { ChecksAndRuns sources.now limits (state_of W.contents output.old) (state_of W.contents output.new) result }
{
    let compiled = compile(alloc, sources)?;
    let end = run(alloc, &compiled, limits, output);
    drop(compiled);
    Ok(end)
}
