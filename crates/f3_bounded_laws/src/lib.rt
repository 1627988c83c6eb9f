//! Laws on the literals and declarations that sources spell: no run of a parser.
#![tactic(auto)]

ghost use Rattle.f3_bounded_laws.specs.Laws.{SpelledBodiesAreBounded, SpelledDeclarationsAreWritten};

/// The literals in the bodies of a tree that sources spell have at most 64 bits, and its CASE values are such as a source may spell (own rule
/// for ISO/IEC 1539-1:2004, 4.4.1; 8.1.3).
pub fn bodies_are_bounded()
    ensures { SpelledBodiesAreBounded }
{}

/// The initializers and bounds in the declarations of a tree that sources spell, those of types included, are such as a source may spell: each
/// designator has a name, and each array constructor a value (4.5.3, 4.7, 5.1).
pub fn declarations_are_written()
    ensures { SpelledDeclarationsAreWritten }
{}
