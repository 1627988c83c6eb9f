//! Laws that what breaks no rule is pure where the rules ask for it.
#![tactic(auto)]

ghost use Rattle.f3_purity_laws.specs.Composed.{LawfulIsPure};
ghost use Rattle.f3_purity_laws.specs.Guarded.{GuardedBlocks};
ghost use Rattle.f3_purity_laws.specs.Laws.{BlocksCallPure};
ghost use Rattle.f3_purity_laws.specs.Owning.{LawfulChangesOwn};

/// A block of a pure procedure that breaks no rule calls pure procedures alone, and neither prints nor stops, once elaborated, where what
/// the rules take for pure subroutines are pure procedures of the program (ISO/IEC 1539-1:2004, 12.6, rule D6).
pub fn blocks_call_pure()
    ensures { BlocksCallPure }
{}

/// A block that breaks no rule breaks none where, in a pure procedure, each variable that another scope declares counts as protected:
/// what D5 forbids is then forbidden by D1.
pub fn guarded_blocks()
    ensures { GuardedBlocks }
{}

/// Where no variable that lives for the whole run may be defined, a lawful statement changes what its procedure owns alone.
pub fn lawful_changes_own()
    ensures { LawfulChangesOwn }
{}

/// There a lawful statement is one of a pure procedure where it calls pure procedures alone and what it may define is of types without
/// impure final subroutines (rules D5, D6 and T12).
pub fn lawful_is_pure()
    ensures { LawfulIsPure }
{}
