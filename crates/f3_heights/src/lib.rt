//! How many cells stand on the stack of an activation at each line of the code of a program, known before the run.
#![tactic(auto)]

ghost use Rattle.f3_heights.specs.Laws.{
  CodeHasHeights,
  CodeHasNeeds,
  HeapStepsFit,
  HeapStepsKeepRoom,
  LinesNeed,
  RunsAreBounded,
  RunsHaveRoom,
  StatesAreOfRuns,
  StartsWithin,
  StepsFit,
  StepsKeepRoom,
  WithinHasRoom,
};

/// Where heights are those of a code, line by line, each step of the machine keeps to them: the stack of an activation has as many
/// cells as the height of its line says, and so has the stack of each caller (own rule).
pub fn steps_fit()
    ensures { StepsFit }
{}

/// The code of every Core program has heights, known before the run: at each line so many cells stand there on whatever way the
/// machine comes to it (own rule).
pub fn code_has_heights()
    ensures { CodeHasHeights }
{}

/// Where heights and needs are those of a code, line by line, each step of the machine keeps to what activations need; and these
/// needs change only where a procedure begins or ends: one that begins needs what its first line says (own rule).
pub fn steps_keep_room()
    ensures { StepsKeepRoom }
{}

/// The code of every Core program has needs, known before the run: of each line what its procedure needs, or its routine with those
/// that it may run (own rule).
pub fn code_has_needs()
    ensures { CodeHasNeeds }
{}

/// What a line of the main program or of a procedure says is needed is the greatest height of all its lines, and what the routines
/// of types add that it may run (own rule).
pub fn lines_need()
    ensures { LinesNeed }
{}

/// A program begins within what its main program needs (own rule).
pub fn starts_within()
    ensures { StartsWithin }
{}

/// Where activations are within what they need, none has more cells than that, and no caller as many; and each has those that the
/// heights say (own rule).
pub fn within_has_room()
    ensures { WithinHasRoom }
{}

/// In each state of each run of a Core program no activation has more cells than its procedure needs, and no caller as many
/// (own rule).
pub fn runs_have_room()
    ensures { RunsHaveRoom }
{}

/// In each state of each run of a Core program there are no more callers than there may be, and these and the newest activation
/// together have no more cells than if each had the greatest need: what a run needs for its cells is known before it (own rule).
pub fn runs_are_bounded()
    ensures { RunsAreBounded }
{}

/// The states of which this speaks are those of the run: what the run does from there on is what the machine does from the state
/// (own rule).
pub fn states_are_of_runs()
    ensures { StatesAreOfRuns }
{}

/// The machine over a heap of a size keeps to the heights of a code in the same way (own rule).
pub fn heap_steps_fit()
    ensures { HeapStepsFit }
{}

/// The machine over a heap of a size keeps to what activations need in the same way (own rule).
pub fn heap_steps_keep_room()
    ensures { HeapStepsKeepRoom }
{}
