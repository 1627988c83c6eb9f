//! Laws that the elaborated program of what breaks no rule has all that code of known kinds asks.
#![tactic(auto)]

ghost use Rattle.f3_fitted_laws.specs.Laws.{FinalsFit, UnbrokenFits, ValuesAreWords};

/// The values of named constants have at most 64 bits (own rule for ISO/IEC 1539-1:2004, 4.4.1).
pub fn values_are_words()
    ensures { ValuesAreWords }
{}

/// The final subroutines of a lawful program that is well formed can be called with objects of their types and ranks (4.5.5).
pub fn finals_fit()
    ensures { FinalsFit }
{}

/// A program that breaks no rule fits as a whole, where the rules and the elaborated program are of the same entities and kinds: final
/// subroutines take objects of their types, initializers are constants of the types that they are declared with, the main program has no
/// dummies, and in all bodies operators fit their operands, constructors their values, and CASE its SELECT CASE (4.5.5, 4.5.9, 4.7, 5.1, 7.1.4, 8.1).
pub fn unbroken_fits()
    ensures { UnbrokenFits }
{}
