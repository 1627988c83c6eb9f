//! Laws on the code of what is accepted: the kind of each cell is known before a run.
#![tactic(auto)]

ghost use Rattle.f3_accepted_code_laws.specs.Laws.{AcceptedCodeHasKinds, AcceptedFits, AcceptedRunsHold};

/// The elaborated program of what is accepted has, beside IsWellFormed, all that code of known kinds asks: operators fit the types of their
/// operands, constructors have the values that they take, CASE fits its SELECT CASE, initializers are constants of their types, and final
/// subroutines take objects of their types (ISO/IEC 1539-1:2004, 4.5.5, 4.5.9, 4.7, 5.1, 7.1.4, 8.1).
pub fn accepted_fits()
    ensures { AcceptedFits }
{}

/// The kind of each cell of the stack is known at each line of the code of what is accepted, before a run.
pub fn accepted_code_has_kinds()
    ensures { AcceptedCodeHasKinds }
{}

/// In each state of each run of what is accepted cells hold what their kinds say, as long as objects have stood in the store before.
pub fn accepted_runs_hold()
    ensures { AcceptedRunsHold }
{}
