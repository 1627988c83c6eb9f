//! What a main program has lent and selects outside of all its constructs: nothing, in each state of its run.
#![tactic(auto)]

ghost use Rattle.std.specs.Prelude.{◌≡◌, ◌↔◌, false, true, All};
ghost use Rattle.f3_gen_values.specs.declared.line.Line as l;
ghost use Rattle.f3_gen_values.specs.Emission.{code_in};
ghost use Rattle.f3_resting_laws.specs.Laws.{HeapStepsKeepRest, LinesKeepRest, RunsRest, StepsKeepRest, code_of};
ghost use Rattle.f3_resting_laws.specs.Rests.{LendsNothing, is_lending};

use f3_code::instruction::Instruction;
use f3_gen_values::emission::Emission;
use f3_gen_values::line::Line;
use f3_program::program::Program;

/// Whether an instruction lends the object on top, or two.
fn is_lending(act: Instruction) -> bool
    ensures { result ≡ is_lending act }
{
    matches!(act, Instruction::Lend | Instruction::LendBoth)
}

/// Whether none of these lines does.
fn lines_lend_nothing(lines: &[Line]) -> bool
    ensures { (result ≡ true) ↔ All (λ (x : l.Line). is_lending x.act ≡ false) lines.now }
{
    lines.iter().all(|line| !is_lending(line.act))
}

/// Whether no line of the code of a program lends an object, by what was emitted for it: so it is where nothing is finalized or allocatable.
pub fn lends_nothing(program: &Program, emission: &Emission) -> bool
    requires { code_in program.now emission.now ≡ code_of program.now }
    ensures { (result ≡ true) ↔ LendsNothing (code_of program.now) }
{
    lines_lend_nothing(&emission.lines)
}

/// Where a line lends no object, so it is behind it, if it was before it; and so behind each step of a program that lends none, whatever the
/// heap answers, and over one of a size.
pub fn steps_keep_rest()
    ensures lines { LinesKeepRest }
    ensures steps { StepsKeepRest }
    ensures heap_steps { HeapStepsKeepRest }
{}

/// It is so in each state of each run of such a program.
pub fn runs_rest()
    ensures { RunsRest }
{}
