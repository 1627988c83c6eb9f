//! Laws on the initial values of what an unbroken program declares.
#![tactic(auto)]

ghost use Rattle.f3_initial_laws.specs.Laws.{InitialsAreOfTypes};

/// Components and variables of a program that breaks no rule are initialized with constants of their types, one for all elements or one for
/// each: the values that the rules count with where they are declared are those of the elaborated program (ISO/IEC 1539-1:2004, 4.5.3.4, 5.1).
pub fn initials_are_of_types()
    ensures { InitialsAreOfTypes }
{}
