//! Laws on what is accepted: its elaborated program is lawful.
#![tactic(auto)]

ghost use Rattle.f3_accepted_laws.specs.Laws.{AcceptedIsLawful, EntitiesDoAgree};
ghost use Rattle.f3_accepted_laws.specs.Sense.{AcceptedMakesSense};
ghost use Rattle.f3_accepted_laws.specs.Quiet.{AcceptedIsPure};

/// Of a program that is accepted, the types, procedures and variables that the rules on types know wherever a body begins are those of its
/// elaborated program, and a variable of which no rule forbids the definition is one that may be defined there.
pub fn entities_do_agree()
    ensures { EntitiesDoAgree }
{}

/// The elaborated program of what is accepted is lawful: each change of its runs is a permitted one. A protected variable is changed by its
/// own module alone, and a private component selected there alone (ISO/IEC 1539-1:2004, 4.5.1.1, 5.1.2.12, 16.5.7).
pub fn accepted_is_lawful()
    ensures { AcceptedIsLawful }
{}

/// The elaborated program of what is accepted makes sense: types, ranks and allocatables agree, arguments fit dummies, and types stand behind
/// those of their components (ISO/IEC 1539-1:2004, 4.5, 6, 7.1.4, 7.4.1, 12.4.1).
pub fn accepted_makes_sense()
    ensures { AcceptedMakesSense }
{}

/// The elaborated program of what is accepted is pure: its functions, and its procedures with the prefix PURE, do what pure ones may
/// (ISO/IEC 1539-1:2004, 12.6).
pub fn accepted_is_pure()
    ensures { AcceptedIsPure }
{}
