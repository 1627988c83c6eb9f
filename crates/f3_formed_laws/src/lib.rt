//! Laws that the elaborated program of what breaks no rule makes sense: its types, ranks and allocatables agree.
#![tactic(auto)]

ghost use Rattle.f3_formed_laws.specs.Laws.{ActionsMakeSense, BlocksMakeSense, ExpressionsHaveKinds, UnbrokenMakesSense, VariablesHaveKinds};

/// An expression that breaks no rule of phase 6 makes sense in the elaborated program, where the rules and the program speak of the same
/// kinds: it is of the rank that is said, never allocatable, and of a type that agrees (ISO/IEC 1539-1:2004, 7.1.4, 12.4.1, 4.5.9). A
/// variable is of the very type and rank that are said, and a whole allocatable itself is allocatable.
pub fn expressions_have_kinds()
    ensures values { ExpressionsHaveKinds }
    ensures variables { VariablesHaveKinds }
{}

/// An action that breaks no rule of phases 6 and 7 makes sense in the elaborated program: it defines, passes, allocates and moves objects
/// of the kinds that the program tells, and takes values that fit them (7.4.1, 6.3, 8.1.6, 9.5, 12.4.1, 13.7.82).
pub fn actions_make_sense()
    ensures { ActionsMakeSense }
{}

/// So does a block with the constructs in it: conditions are scalar logicals, DO variables and bounds scalar integers, and associate names
/// of the kinds of their selectors (8.1).
pub fn blocks_make_sense()
    ensures { BlocksMakeSense }
{}

/// A program that breaks no rule of phases 5 to 7 makes sense as a whole, where the rules and the elaborated program are of the same
/// kinds: its types stand behind those of their components, what is declared has a dimension for each rank, each final subroutine has one
/// dummy, and each body makes sense (4.5, 5.1, 12.5.2).
pub fn unbroken_makes_sense()
    ensures { UnbrokenMakesSense }
{}
