//! Of which sort each cell is on the stack of an activation at each line of the code of a program, known before the run.
#![tactic(auto)]

ghost use Rattle.f3_sorts.specs.Laws.{CodeHasSorts, HeapStepsFit, RunsFit, SortsHaveHeights, StepsFind, StepsFit, StepsLack};

/// Where sorts are those of a code, line by line, each step of the machine keeps to them: the cells on the stack of an activation are
/// of the sorts that its line says, and so are those of each caller (own rule).
pub fn steps_fit()
    ensures { StepsFit }
{}

/// Where sorts are those of a code, the next instruction finds on the stack the cells that it takes, each of its sort (own rule).
pub fn steps_find()
    ensures { StepsFind }
{}

/// Where sorts are those of a code, no step is stuck for want of a cell or by one of another sort: only where there is no line, where a
/// procedure that returns or looks at its caller has none, or where a routine is left that none has entered (own rule).
pub fn steps_lack()
    ensures { StepsLack }
{}

/// The code of every Core program has sorts, known before the run: at each line the cells are of these on whatever way the machine comes
/// to it (own rule).
pub fn code_has_sorts()
    ensures { CodeHasSorts }
{}

/// At each line of the code of a Core program there are as many sorts as the height of the line says (own rule).
pub fn sorts_have_heights()
    ensures { SortsHaveHeights }
{}

/// In each state of each run of a Core program the cells of each activation are of the sorts that its line says: what stands in each
/// place of the stack is known before the run (own rule).
pub fn runs_fit()
    ensures { RunsFit }
{}

/// The machine over a heap of a size keeps to the sorts of a code in the same way (own rule).
pub fn heap_steps_fit()
    ensures { HeapStepsFit }
{}
