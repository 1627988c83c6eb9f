//! Laws on variables where the body of a unit or of a procedure begins: those that the rules on types know there are those of the elaborated
//! program.
#![tactic(auto)]

ghost use Rattle.f3_variable_laws.specs.Laws.{VariablesAreWithin, VariablesHaveTypes, VariablesMayBeDefined};

/// A variable that a name means where a body begins is one of the elaborated program, whose type is that of its declaration: it lives for
/// the whole run, is one of the activation, or is a dummy (ISO/IEC 1539-1:2004, 5.1, 12.3.1, 12.5.2.1).
pub fn variables_have_types()
    ensures { VariablesHaveTypes }
{}

/// One that is lent is one of the dummies.
pub fn variables_are_within()
    ensures { VariablesAreWithin }
{}

/// One of which D1 and D2 ask nothing may be defined: it is not protected, or its own module's; and it is no dummy that is INTENT(IN)
/// (5.1.2.7, 5.1.2.12).
pub fn variables_may_be_defined()
    ensures { VariablesMayBeDefined }
{}
