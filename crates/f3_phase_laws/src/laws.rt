//! Laws on the breaks of rules on types, shapes, constants and definitions.

ghost use Rattle.f3_phase_laws.specs.Laws.{BreaksHaveLatePhases, EarlyBreaksStand, RulesTellPhases};
ghost use Rattle.f3_phase_laws.specs.Numbers.{UnitsHaveTheirNumbers, UnitsAreThose};

/// The breaks of rules on types, shapes, constants and definitions are of phases 5 to 7, behind all of those on text, units and names: a
/// break of phases 1 to 4 is reported before any of them.
pub fn breaks_have_late_phases()
    ensures phases { BreaksHaveLatePhases }
    ensures order { EarlyBreaksStand }
{}

/// A rule tells in which of these phases it is broken; T2 and T12, which have two, are broken in phase 5 in specification parts and headers,
/// and in phase 6 in blocks.
pub fn rules_tell_phases()
    ensures { RulesTellPhases }
{}

/// The rules on types and definitions number the units of a program as the tables of names do, and know each unit and each procedure
/// by the numbers of its scope and entity.
pub fn units_are_numbered()
    ensures numbers { UnitsHaveTheirNumbers }
    ensures units { UnitsAreThose }
{}
