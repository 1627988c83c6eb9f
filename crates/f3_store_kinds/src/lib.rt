//! Of which kinds the objects of a store are, and where references lead.
#![tactic(auto)]

ghost use Rattle.f3_store_kinds.specs.Laws.{ChangesKeep, CodeBegins, CodeIsClean, ComponentsLead, ContentsLead, ElementsLead, HeapStepsAccord};
ghost use Rattle.f3_store_kinds.specs.Laws.{LevelsBegin, LevelsEnd, PartsStand, PutsKeep, ReadsHold, RunsAccord, StartAccords, StepsAccord, StoresHold, WaysAgree};

/// A way leads to a kind as the declarations of arrays say too, or what it leads to is not there (own rule).
pub fn ways_agree()
    ensures { WaysAgree }
{}

/// Where one object of a kind takes a value of its kind, the store is of the same kinds as before (own rule).
pub fn puts_keep()
    ensures { PutsKeep }
{}

/// So where the objects that a reference reaches take each a value of its kind (own rule).
pub fn changes_keep()
    ensures { ChangesKeep }
{}

/// A level that begins adds its kinds, and references lead to where they led (own rule).
pub fn levels_begin()
    ensures { LevelsBegin }
{}

/// Levels that end take their kinds with them; paths from objects on other levels lead to where they led, and none from those that ended
/// (own rule).
pub fn levels_end()
    ensures { LevelsEnd }
{}

/// What is read at a reference is of the kind to which it leads, or there is nothing; of an array each element is so (own rule).
pub fn reads_hold()
    ensures { ReadsHold }
{}

/// A component of what leads leads to an object of its kind: that of one object, or of each element of an array
/// (ISO/IEC 1539-1:2004, 6.1.2; own rule).
pub fn components_lead()
    ensures { ComponentsLead }
{}

/// What an allocatable holds leads to an object of its type and rank (own rule).
pub fn contents_lead()
    ensures { ContentsLead }
{}

/// Elements and sections of what leads lead to elements of its type, and so do elements of a component of each element of an array
/// (ISO/IEC 1539-1:2004, 6.2.2; own rule).
pub fn elements_lead()
    ensures { ElementsLead }
{}

/// In the code of each program nothing of a SELECT CASE or an ASSOCIATE goes by Drop, Unwind or Swap (own rule).
pub fn code_is_clean()
    ensures { CodeIsClean }
{}

/// The procedures of the code of a program that makes sense begin with values of the kinds of their variables (own rule).
pub fn code_begins()
    ensures { CodeBegins }
{}

/// Each step, in a program that makes sense, leads from a state that accords with a typing, and in which objects stand, to one that
/// accords with a typing (own rule).
pub fn steps_accord()
    ensures { StepsAccord }
{}

/// The machine over a heap of a size keeps to this in the same way, and to what cells hold (own rule).
pub fn heap_steps_accord()
    ensures { HeapStepsAccord }
{}

/// The state in which a program that makes sense begins accords with the typing of what is declared (own rule).
pub fn start_accords()
    ensures { StartAccords }
{}

/// In each state of each run of a program that makes sense the store holds values of kinds, and all references lead to objects of the
/// kinds that are known for them, as long as objects have stood in the store before (own rule).
pub fn stores_hold()
    ensures { StoresHold }
{}

/// In a state that accords with a typing the variables stand, and so do the objects on the stack where they are there (own rule).
pub fn parts_stand()
    ensures { PartsStand }
{}

/// So cells hold what their types say, and references lead to objects of their kinds, as long as what the objects on the stack reach has
/// been there before (own rule).
pub fn runs_accord()
    ensures { RunsAccord }
{}
