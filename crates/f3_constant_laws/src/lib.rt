//! Laws on the values of named constants in what breaks no rule.
#![tactic(auto)]

ghost use Rattle.f3_constant_laws.specs.Laws.{ConstantsAreKept};

/// In a program that breaks no rule, each value of a named constant that the rules know where something is declared is the one that is known
/// behind all its units (ISO/IEC 1539-1:2004, 5.1, 7.1.7).
pub fn constants_are_kept()
    ensures { ConstantsAreKept }
{}
