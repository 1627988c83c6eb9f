//! Laws on programs that sources spell: no run of a parser.
#![tactic(auto)]

ghost use Rattle.f3_levelled_laws.specs.Laws.{ExpressionsAreLevelled, SpelledBodiesAreLevelled, SpelledInitialsAreWritten, SpelledMakesSense};

/// The operators of each chain that tokens spell are of one sort: they all take integers, or all logicals (ISO/IEC 1539-1:2004, 7.1). So in
/// the bodies of a tree that sources spell.
pub fn expressions_are_levelled()
    ensures expressions { ExpressionsAreLevelled }
    ensures bodies { SpelledBodiesAreLevelled }
{}

/// The initializers of a tree that sources spell are written: each designator has a name, and each array constructor a value (4.7, 5.1, 6.1).
pub fn initials_are_written()
    ensures { SpelledInitialsAreWritten }
{}

/// What sources spell, and breaks no rule of phases 3 to 7, makes sense in its elaborated program: types, ranks and allocatables agree.
pub fn spelled_makes_sense()
    ensures { SpelledMakesSense }
{}
