//! What the machine of units reads is what spells units.

ghost use Rattle.f3_units.specs.Laws.{HoldsWhatIsSpelled, ReadsWhatIsSpelled, GoesOnToAnEnd};

/// The machine, step by step as `Builder` steps, reads units: statements that were read, with no unit open, spell the
/// units that are held; statements that spell units are read as those; and what was read can go on to the end of a unit,
/// so a statement is out of place exactly where no list of units begins so (2.2, 11.1).
pub fn reads_units()
    ensures holds { HoldsWhatIsSpelled }
    ensures reads { ReadsWhatIsSpelled }
    ensures goes_on { GoesOnToAnEnd }
{}
