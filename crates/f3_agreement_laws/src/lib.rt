//! Laws on programs that break no rule: the types and procedures that the rules on types know are those of the elaborated program.
#![tactic(auto)]

ghost use Rattle.f3_agreement_laws.specs.Laws.{VisibleIsNoAssociate, TypesAreKnown, TypesAreAtPlaces, TypesAgree, SubroutinesAgree};
ghost use Rattle.f3_agreement_laws.specs.Laws.{FunctionsAgree};

/// Where the body of a unit or of a procedure begins no associate name is visible (ISO/IEC 1539-1:2004, 16.3).
pub fn visible_is_no_associate()
    ensures { VisibleIsNoAssociate }
{}

/// Where no rule is broken the types of all that is declared are known: constants, components, dummies, results, and the variables that are
/// visible where a body begins (5.3: there is no implicit typing).
pub fn types_are_known()
    ensures { TypesAreKnown }
{}

/// Each type has the number of its place in the elaborated program, with the components that the rules know (4.5).
pub fn types_agree()
    ensures places { TypesAreAtPlaces }
    ensures types { TypesAgree }
{}

/// Each procedure has there the dummies that the rules know, with their types and intents; no dummy of a function may be defined (12.4.1.2).
pub fn procedures_agree()
    ensures subroutines { SubroutinesAgree }
    ensures functions { FunctionsAgree }
{}
