//! Laws that what breaks no rule is lawful: its changes are permitted ones.
#![tactic(auto)]

ghost use Rattle.f3_lawful_laws.specs.Laws.{ActionsMayRun, BlocksMayRun, ExpressionsHaveTypes, ExpressionsMayStand, UnbrokenIsLawful};

/// In an expression that breaks no rule of phase 6 private components are selected in the modules of their types alone, and each
/// argument is of its dummy's type, a value where that is INTENT(IN), as the elaborated program has it (ISO/IEC 1539-1:2004, 4.5.1.1,
/// 12.4.1.2). It has a type.
pub fn components_are_selectable()
    ensures types { ExpressionsHaveTypes }
    ensures stand { ExpressionsMayStand }
{}

/// An action that breaks no rule of phases 6 and 7 defines, passes and allocates variables that may be defined, of the types that the
/// elaborated program tells (16.5.7, 12.4.1.2, 6.3, 13.7.82).
pub fn definitions_may_be()
    ensures { ActionsMayRun }
{}

/// So does a block with the constructs in it, in which an associate name may be defined where its selector may (8.1.4.3).
pub fn blocks_may_run()
    ensures { BlocksMayRun }
{}

/// A program that breaks no rule of phases 5 to 7 is lawful, where the rules and the elaborated program speak of the same
/// entities: each change of a run is a permitted one (5.1.2.12, 4.5.1.1, 4.5.5).
pub fn unbroken_is_lawful()
    ensures { UnbrokenIsLawful }
{}
