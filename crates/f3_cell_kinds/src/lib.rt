//! Of which kind each cell is on the stack of an activation at each line of the code of a program, known before the run.
#![tactic(auto)]

ghost use Rattle.f3_cell_kinds.specs.Laws.{ChangesHold, CodeHasKinds, InitialsFit, KindsHaveSorts, PartsHold, RunsHold, StandingStepsHold, StartFits, StepsHold};

/// The code of every program that makes sense has kinds, known before the run: at each line the cells are of these on whatever way the
/// machine comes to it (own rule).
pub fn code_has_kinds()
    ensures { CodeHasKinds }
{}

/// Without their kinds the cells of each line are of the sorts of the same code (own rule).
pub fn kinds_have_sorts()
    ensures { KindsHaveSorts }
{}

/// Where kinds are those of a code, each step of an instruction that reads nothing from the store leads from a state whose cells hold
/// what their types say to one whose cells do (own rule).
pub fn steps_hold()
    ensures { StepsHold }
{}

/// And so does each step, of whatever instruction, in a program that makes sense, where the objects on the stack and the variables stand
/// in the store as values of their kinds (own rule).
pub fn standing_steps_hold()
    ensures { StandingStepsHold }
{}

/// The state in which a program that makes sense begins has cells that hold what their types say (own rule).
pub fn start_fits()
    ensures { StartFits }
{}

/// Of each type the initial value is one of it, and each variable of a program that makes sense begins with a value of its kind
/// (ISO/IEC 1539-1:2004, 4.5.3.4, 5.1; own rule).
pub fn initials_fit()
    ensures { InitialsFit }
{}

/// In each state of each run of a program that makes sense cells hold what their types say, as long as objects have stood in the store
/// before (own rule).
pub fn runs_hold()
    ensures { RunsHold }
{}

/// A part of a value is of the kind to which its way leads by the declarations, where it is there at all (own rule).
pub fn parts_hold()
    ensures { PartsHold }
{}

/// A value in which such a part, one object, is another one of its kind is of the same kind as before (own rule).
pub fn changes_hold()
    ensures { ChangesHold }
{}
