//! Laws on programs that break no rule: what the rules on types know of them and what their elaborated programs say are of the same kinds.
#![tactic(auto)]

ghost use Rattle.f3_kind_laws.specs.Laws.{ConstantsAreOfTypes, FunctionsHaveDummies, KindsDoAgree, ResultsAreOwn, SubroutinesHaveDummies};
ghost use Rattle.f3_kind_laws.specs.Laws.{TypesAreCounted, TypesHaveComponents, TypesStandBehind, UnitsAreOrdered, VariablesAreOfKinds};

/// Each unit is among those that are checked, and the number of a declared type is below their count (ISO/IEC 1539-1:2004, 11.2.1).
pub fn types_are_counted()
    ensures units { UnitsAreOrdered }
    ensures types { TypesAreCounted }
{}

/// A type stands behind those of its components (4.5.3): behind those of its own module that are defined above it, and of the modules used.
pub fn types_stand_behind()
    ensures { TypesStandBehind }
{}

/// Each type has components of the kinds that the rules know (4.5).
pub fn types_have_components()
    ensures { TypesHaveComponents }
{}

/// Each procedure has dummies of these kinds, a function a result of the kind of its own, and this is no dummy (12.4.1, 12.5.2.1).
pub fn procedures_have_dummies()
    ensures subroutines { SubroutinesHaveDummies }
    ensures functions { FunctionsHaveDummies }
    ensures results { ResultsAreOwn }
{}

/// A variable that a name means where a body begins is of the kind that its declaration says: it lives for the whole run, is one of the
/// activation, or is a dummy (5.1, 12.3.1, 12.5.2.1).
pub fn variables_are_of_kinds()
    ensures { VariablesAreOfKinds }
{}

/// A named constant is a scalar with a value of its type (5.1.2.10, 7.1.7).
pub fn constants_are_of_types()
    ensures { ConstantsAreOfTypes }
{}

/// Where no rule of phases 3 to 7 is broken, and initializers are such as a source may spell, the rules on types and the elaborated program
/// are of the same kinds, wherever a body begins.
pub fn kinds_do_agree()
    ensures { KindsDoAgree }
{}
