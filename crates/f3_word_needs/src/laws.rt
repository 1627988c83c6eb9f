//! Laws of how much room stacks want.

ghost use Rattle.f3_word_needs.specs.Laws.{AssociatesAreFew, BlocksAreFew, CallersAreFew, CallsAreFew, CellsAreFew, DummiesAreFew, LevelsAreFew, LinesKeepRoom, MemoryIsAsLarge, NamesAreFew, NamesAreKept, SelectorsAreFew, StartHasRoom};

/// A program begins in a state with room (own rule).
pub fn start_has_room()
    ensures { StartHasRoom }
{}

/// From such a state each line leads to another (own rule).
pub fn lines_keep_room()
    ensures { LinesKeepRoom }
{}

/// There are at most 1000 callers (own rule).
pub fn callers_are_few()
    ensures { CallersAreFew }
{}

/// All activations together have no more cells than the main program needs, and a thousand procedures of the greatest need (own rule).
pub fn cells_are_few()
    ensures { CellsAreFew }
{}

/// All activations together have no more names than if each had those of the procedure that has most: its dummies, and those of its
/// ASSOCIATEs twice (ISO/IEC 1539-1:2004, 12.5.2.1, 8.1.4).
pub fn names_are_few()
    ensures { NamesAreFew }
{}

/// ASSOCIATEs that are open have no more names than if each activation had the most that a procedure has of these (8.1.4).
pub fn selectors_are_few()
    ensures { SelectorsAreFew }
{}

/// No procedure has more dummies than are told (ISO/IEC 1539-1:2004, 12.5.2.1).
pub fn dummies_are_few()
    ensures { DummiesAreFew }
{}

/// There are at most two levels of values for each caller, one for the main program, and one for each cell (own rule).
pub fn levels_are_few()
    ensures { LevelsAreFew }
{}

/// What stands in memory for a state has as many cells, callers and levels, and keeps as many names of ASSOCIATEs (own rule).
pub fn memory_is_as_large()
    ensures { MemoryIsAsLarge }
{}

/// There are no more names in memory than dummies of the procedures that were called, and names of ASSOCIATEs that are open (own rule).
pub fn names_are_kept()
    ensures { NamesAreKept }
{}

/// There are no more blocks of rooms than these, and one for each activation (own rule).
pub fn blocks_are_few()
    ensures { BlocksAreFew }
{}

/// A procedure is called with no more arguments than the dummies of the procedure that has most (ISO/IEC 1539-1:2004, 12.4.1).
pub fn calls_are_few()
    ensures { CallsAreFew }
{}

/// An ASSOCIATE has no more names than may be open at once in the activation that has most (8.1.4).
pub fn associates_are_few()
    ensures { AssociatesAreFew }
{}
