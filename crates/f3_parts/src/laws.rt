//! What the machine of a specification part reads is what spells one.

ghost use Rattle.f3_parts.specs.Laws.{HoldsWhatIsSpelled, ReadsWhatIsSpelled, GoesOnToAnEnd};

/// The machine, step by step as `PartBuilder` steps, reads specification parts: statements that were read, with no type
/// definition open, spell the part that is held; statements that spell a part are read as that part; and what was read
/// can go on to the end of a part, so a statement is out of place exactly where no part begins so (2.2, 4.5).
pub fn reads_parts()
    ensures holds { HoldsWhatIsSpelled }
    ensures reads { ReadsWhatIsSpelled }
    ensures goes_on { GoesOnToAnEnd }
{}
