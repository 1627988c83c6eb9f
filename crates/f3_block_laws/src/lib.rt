//! Laws that statements which break no rule have in the elaborated program what code of known kinds asks.
#![tactic(auto)]

ghost use Rattle.f3_block_laws.specs.Laws.{ActionsFit, BlocksFit};

/// An action that breaks no rule of phase 6 fits: so do its designators, its values and its arguments (6.3, 7.4.1, 9.5, 12.4).
pub fn actions_fit()
    ensures { ActionsFit }
{}

/// So does a block with the constructs in it: the ranges of a CASE are of the type of its SELECT CASE, and what an ASSOCIATE holds as a value
/// is not allocatable (8.1).
pub fn blocks_fit()
    ensures { BlocksFit }
{}
