//! Laws of a machine over words.
#![tactic(auto)]

ghost use Rattle.f3_word_laws.specs.Laws.{GrantedRunsHaveRoom, ObjectsAreThere, RunsAreTold, RunsGoOn, StartIsTold};

/// Where blocks and a state in memory stand for a state whose cells are of the kinds that are known at its line, the objects on its stack
/// stand in the store as values of their kinds.
pub fn objects_are_there()
    ensures { ObjectsAreThere }
{}

/// A program that makes sense and has no allocatables begins in a state of which the kinds are told.
pub fn start_is_told()
    ensures { StartIsTold }
{}

/// From such a state a line leads to another, where blocks and a state in memory stand for that.
pub fn runs_are_told()
    ensures { RunsAreTold }
{}

/// What lines do one after another is what the machine with some answers of a heap does.
pub fn runs_go_on()
    ensures { RunsGoOn }
{}

/// Error 6 is one of requests that are refused: where the heap grants all, no run of a program without allocatables ends so.
pub fn granted_runs_have_room()
    ensures { GrantedRunsHaveRoom }
{}
