//! Laws that what breaks no rule is pure: its functions change nothing, and its pure procedures only what is passed to them to be changed.
#![tactic(auto)]

ghost use Rattle.f3_unbroken_laws.specs.Laws.{UnbrokenIsPure};

/// A program that breaks no rule is pure, where the rules and the elaborated program speak of the same entities and the elaborated one
/// makes sense: its functions and its procedures with the prefix PURE do what pure ones may (ISO/IEC 1539-1:2004, 12.6).
pub fn unbroken_is_pure()
    ensures { UnbrokenIsPure }
{}
