//! Laws that pure procedures change nothing but what is passed to be changed, and functions nothing at all.
#![tactic(auto)]

ghost use Rattle.f3_pure_laws.specs.Ending.{HarmlessMayEnd};
ghost use Rattle.f3_pure_laws.specs.Laws.{FunctionsAreQuiet, FunctionsChangeNothing, PlacesChangeNothing, PureCallsAreQuiet, PureCallsKeep};

/// The evaluation of an expression leaves the store as it was, whatever functions it refers to (ISO/IEC 1539-1:2004, 12.6).
pub fn functions_change_nothing()
    ensures { FunctionsChangeNothing }
{}

/// So does locating a designator, with all its subscripts.
pub fn places_change_nothing()
    ensures { PlacesChangeNothing }
{}

/// The evaluation of an expression prints nothing, does not stop, and what it changes, also where it fails, is on levels that began within it.
pub fn functions_are_quiet()
    ensures { FunctionsAreQuiet }
{}

/// A call of a pure procedure prints nothing, does not stop, and changes only what begins within it and what is passed to dummies
/// that may be defined.
pub fn pure_calls_are_quiet()
    ensures { PureCallsAreQuiet }
{}

/// What stood before such a call and is not passed so holds after it what it held.
pub fn pure_calls_keep()
    ensures { PureCallsKeep }
{}

/// An object may be destroyed by a pure procedure where no final subroutine of its type or of a component's is impure (4.5.5).
pub fn harmless_may_end()
    ensures { HarmlessMayEnd }
{}
