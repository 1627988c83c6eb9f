//! Programs, run over words.

ghost use Rattle.std.specs.Prelude.{◌≡◌};
ghost use Rattle.std.specs.FinMap.{empty};
ghost use Rattle.f3_gen_values.specs.Emission.{code_in};
ghost use Rattle.f3_meaning_whole.specs.Formed.{IsWellFormed};
ghost use Rattle.f3_meaning_whole.specs.Permitted.{IsLawful};
ghost use Rattle.f3_cell_kinds.specs.Sense.{MakesSense};
ghost use Rattle.f3_output.specs.Output.{state_of};
ghost use Rattle.f3_word_cells.specs.Scenes.{code_of};
ghost use Rattle.f3_word_start.specs.Kept.{IsKeptBehind};
ghost use Rattle.f3_word_machine.specs.Runs.{IsFull, IsSpent};
ghost use Rattle.f3_word_run.specs.Runs.{Answers, HasNoStart};

use f3_gen_values::emission::Emission;
use f3_heap::Blocks;
use f3_output::output::Output;
use f3_program::program::Program;
use f3_sizes::needs::needs;
use f3_word_machine::ended::Ended;
use f3_word_machine::rooms::room_for;
use f3_word_machine::whole::run_program;
use f3_word_needs::needs::stack_needs;
use f3_word_start::frames::Frames;
use f3_word_start::plain::is_plain;
use f3_word_start::ranks::is_ranked;
use std::alloc::Global;
use std::io::Write;

/// Why a program is not run over words.
#[derive(Clone, Copy, PartialEq, Eq, Debug)]
pub enum Beyond {
    /// It has allocatables, or an array of more than seven dimensions, which no accepted program has (ISO/IEC 1539-1:2004, 5.1.2.5).
    NotPlain,
    /// Its variables, or what stands on its stacks, may be too many (own rule).
    TooLarge,
    /// A growth of the host's memory was refused before the run.
    Memory,
}

/// Runs the code of a program over a heap that has no blocks, for so many instructions at most.
///
/// `Beyond` where it is not run, and then nothing is written.
pub fn run<B: Blocks, W: Write>(
    alloc: Global,
    program: &Program,
    emission: &Emission,
    heap: &mut B,
    steps: u64,
    output: &mut Output<W>,
) -> Result<Ended, Beyond>
    requires code { code_in program.now emission.now ≡ code_of program.now }
    requires formed { IsWellFormed program.now }
    requires sense { MakesSense program.now }
    requires lawful { IsLawful program.now }
    requires empty { B.blocks heap.old ≡ empty }
    ensures runs { Answers (HasNoStart B.blocks B.kept B.spent B.has_room heap.old program.now) (IsFull B.blocks B.kept B.spent B.has_room (B.kept heap.old))
        (IsSpent B.blocks B.kept B.spent B.allows (B.kept heap.old)) program.now steps (state_of W.contents output.old) (state_of W.contents output.new) result }
    ensures kept { IsKeptBehind B.spent (B.kept heap.old) (B.kept heap.new) }
{
    if !is_plain(program, emission) || !is_ranked(program) {
        return Err(Beyond::NotPlain);
    }
    let Ok(framed) = Frames::new(alloc, program) else {
        return Err(Beyond::Memory);
    };
    let Some(frames) = framed else {
        return Err(Beyond::TooLarge);
    };
    let Ok(needs) = needs(alloc, program, emission) else {
        return Err(Beyond::Memory);
    };
    let Some(most) = stack_needs(program, emission, &needs) else {
        return Err(Beyond::TooLarge);
    };
    let Some(room) = room_for(&most) else {
        return Err(Beyond::TooLarge);
    };
    let scene = frames.scene(program, emission);
    Ok(run_program(alloc, scene, room, heap, steps, output))
}
