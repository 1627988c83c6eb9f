//! Laws on what owners of modules rely on, of each program that is accepted.
#![tactic(auto)]

ghost use Rattle.f3_owner_laws.specs.Laws.{AcceptedIsLawful, ChangesArePermitted, PrivateStays, ProtectedStays};
ghost use Rattle.f3_owner_laws.specs.Pure.{AcceptedIsPure, ExpressionsRefer, FunctionsAreQuiet, FunctionsArePure, FunctionsChangeNothing};
ghost use Rattle.f3_owner_laws.specs.Pure.{PlacesChangeNothing, ProceduresKeepTheirOrder, PureCallsAreQuiet, PureCallsKeep, PureCallsKeepVariables};

use f3_meaning_laws::laws;
use f3_source_laws::laws as spelling;

/// The program that accepted sources spell is lawful, each name in it replaced by what it means.
pub fn accepted_is_lawful()
    ensures { AcceptedIsLawful }
{
    f3_accepted_laws::accepted_is_lawful();
}

/// Every change that a run of accepted sources makes is permitted, whatever the bound on turns and whatever the heap answers: by the
/// right to define, of a protected variable from its own module, of a private component by a statement of its type's module or by the
/// language to finalize or deallocate (ISO/IEC 1539-1:2004, 4.5.1.1, 5.1.2.7, 5.1.2.12, 16.5.7).
pub fn changes_are_permitted()
    ensures { ChangesArePermitted }
{
    accepted_is_lawful();
    laws::changes_are_permitted();
}

/// In a run of accepted sources a protected variable holds, as each statement begins, what it held as the one before began, but for
/// changes by statements of its module, or through arguments that its module passed (5.1.2.12).
pub fn protected_stays()
    ensures { ProtectedStays }
{
    accepted_is_lawful();
    laws::protected_stays();
}

/// In a run of accepted sources a private component of a variable that lives for the whole run holds, as each statement begins, what it
/// held as the one before began, but for changes of a whole object around it, and for changes where its type's module selected it,
/// perhaps to pass it, or the language did to finalize or deallocate (4.5.1.1).
pub fn private_stays()
    ensures { PrivateStays }
{
    accepted_is_lawful();
    laws::private_stays();
}

/// The procedures of the program that accepted sources spell are those of the tree, in the same order.
pub fn procedures_keep_their_order()
    ensures { ProceduresKeepTheirOrder }
{
    spelling::sources_spell_one_tree();
}

/// The program that accepted sources spell is pure, each name in it replaced by what it means: its functions, and its procedures with the
/// prefix PURE, do what pure ones may (12.6).
pub fn accepted_is_pure()
    ensures { AcceptedIsPure }
{
    spelling::sources_spell_one_tree();
    f3_accepted_laws::accepted_is_pure();
}

/// Each function of such a program is a pure procedure, none of whose dummies may be defined.
pub fn functions_are_pure()
    ensures { FunctionsArePure }
{
    accepted_is_pure();
}

/// Each expression in a statement of such a program refers to functions of it alone (12.4.2), as the laws below ask.
pub fn expressions_refer()
    ensures { ExpressionsRefer }
{
    accepted_is_pure();
}

/// The evaluation of an expression leaves the store as it was, whatever functions it refers to (12.6).
pub fn functions_change_nothing()
    ensures { FunctionsChangeNothing }
{
    accepted_is_pure();
    f3_pure_laws::functions_change_nothing();
}

/// So does locating a designator, with all its subscripts.
pub fn places_change_nothing()
    ensures { PlacesChangeNothing }
{
    accepted_is_pure();
    f3_pure_laws::places_change_nothing();
}

/// The evaluation of an expression prints nothing and does not stop, and what it changes, also where it fails, is on levels that began
/// within it.
pub fn functions_are_quiet()
    ensures { FunctionsAreQuiet }
{
    accepted_is_pure();
    f3_pure_laws::functions_are_quiet();
}

/// A call of a function, or of a procedure with the prefix PURE, prints nothing, does not stop, and changes only what begins within it
/// and what is passed to dummies that may be defined.
pub fn pure_calls_are_quiet()
    ensures { PureCallsAreQuiet }
{
    accepted_is_pure();
    f3_pure_laws::pure_calls_are_quiet();
}

/// What stood before such a call and is not passed so holds after it what it held.
pub fn pure_calls_keep()
    ensures { PureCallsKeep }
{
    accepted_is_pure();
    f3_pure_laws::pure_calls_keep();
}

/// So a variable that lives for the whole run holds after such a call what it held, unless an object of it is passed to a dummy that may be
/// defined.
pub fn pure_calls_keep_variables()
    ensures { PureCallsKeepVariables }
{
    pure_calls_keep();
}
