//! Parts of runs of programs without allocatables, one behind the other.
#![tactic(auto)]

ghost use Rattle.f3_word_parts.specs.Laws.{GreatestLeads, PartsAreOfRuns, PartsComeOn};

/// A part of a run behind another is a part with it, and leads from a state of a run to such a state (own rule).
pub fn parts_come()
    ensures on { PartsComeOn }
    ensures states { PartsAreOfRuns }
{}

/// What the machine over the greatest heap does is a part of a run, which leads to a state of which the kinds are told, and for which stacks
/// have room (own rule).
pub fn greatest_leads()
    ensures { GreatestLeads }
{}
