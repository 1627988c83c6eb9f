//! The machine over the greatest heap, which refuses nothing.
#![tactic(auto)]

ghost use Rattle.f3_granted_laws.specs.Laws.{ProgramsAreGranted, RunsAreGranted, StatesAreGranted, StartIsOfTheRun, StatesFollow, ToldStatesFollow};

/// The machine over a heap of 2 to the 64 less 1 words is the machine whose requests are all granted, since words are counted modulo 2 to
/// the 64 (own rule): it runs so from any state, and so does a program from its first instruction, and comes to the same states.
pub fn requests_are_granted()
    ensures runs { RunsAreGranted }
    ensures programs { ProgramsAreGranted }
    ensures states { StatesAreGranted }
{}

/// The states to which it comes are states of the run of a program (11.1), whatever a heap answers behind its answers so far: the one
/// behind the first instruction is, and so is each to which it comes from such a state.
pub fn states_are_of_the_run()
    ensures start { StartIsOfTheRun }
    ensures states { StatesFollow }
    ensures told { ToldStatesFollow }
{}
