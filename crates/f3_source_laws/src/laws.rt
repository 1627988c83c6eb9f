//! Laws on whole sources: what statements and sources spell is one.

ghost use Rattle.f3_source_laws.specs.Laws.{StatementsHaveOneForm, BlocksAreOne, PartsAreOne, UnitsAreOne, SourcesSpellOneTree, SpelledSourcesBreakNothing, FirstBreaksAreOne};
ghost use Rattle.f3_source_laws.specs.Roles.{RolesAreSpelled, FormsHaveRoles};

/// The statements of sources have one list of forms at most, and statements of these forms spell one block, one
/// specification part and one list of units at most (2.2, 4.5, 8.1, 11.1).
pub fn statements_and_units_are_one()
    ensures forms { StatementsHaveOneForm }
    ensures blocks { BlocksAreOne }
    ensures parts { PartsAreOne }
    ensures units { UnitsAreOne }
{}

/// Two trees that the same sources spell are one tree, and sources that spell one break no rule of the first phase.
pub fn sources_spell_one_tree()
    ensures one { SourcesSpellOneTree }
    ensures no_break { SpelledSourcesBreakNothing }
{}

/// Two refusals that tell of the first break of the first phase tell the same.
pub fn first_break_is_one()
    ensures { FirstBreaksAreOne }
{}

/// Which roles statements have among units and procedures (2.2, 11.1): each of these is that of a form that some tokens
/// spell, and each form has one of these.
pub fn roles_are_spelled()
    ensures spelled { RolesAreSpelled }
    ensures all { FormsHaveRoles }
{}
