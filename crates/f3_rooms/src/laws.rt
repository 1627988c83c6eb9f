//! Laws of variables in words of blocks.

ghost use Rattle.f3_rooms.specs.Laws.{PartsAreFound, PartsAreWithin, PartsAreReplaced, ScalarsArePut};
ghost use Rattle.f3_rooms.specs.Laws.{ObjectsAreAllocated, ObjectsAreFreed, ObjectsMove, KeptBlocksKeep, ExtrasChangeNothing};
ghost use Rattle.f3_rooms.specs.Flat.{FlatObjectsHoldNothing};
ghost use Rattle.f3_rooms.specs.Laws.{LevelsBegin, LevelsEnd, ZerosAreBlank, BlankIsInitial};

/// What stands at a part of a variable, found through its components, elements and what allocatables hold, is what its words are
/// (ISO/IEC 1539-1:2004, 6.1, 6.2).
pub fn parts_are_found()
    ensures { PartsAreFound }
{}

/// The words of a part lie in a live block, and what is held in it is held by the store.
pub fn parts_are_within()
    ensures { PartsAreWithin }
{}

/// Where the words of a part and what is held in it are another object of its form, the store has that there, and nothing else changes.
pub fn parts_are_replaced()
    ensures { PartsAreReplaced }
{}

/// A scalar is one word.
pub fn scalars_are_put()
    ensures { ScalarsArePut }
{}

/// An allocatable that holds nothing gets a block of zeros (6.3.1).
pub fn objects_are_allocated()
    ensures { ObjectsAreAllocated }
{}

/// What an allocatable holds is given back with all beneath (6.3.3).
pub fn objects_are_freed()
    ensures { ObjectsAreFreed }
{}

/// What an allocatable holds goes over to another (13.7.82).
pub fn objects_move()
    ensures { ObjectsMove }
{}

/// Where the blocks of all variables and of what they hold are as they were, the store is; so it is where a word behind variables is
/// another.
pub fn kept_blocks_keep()
    ensures blocks { KeptBlocksKeep }
    ensures extras { ExtrasChangeNothing }
{}

/// A level of variables begins in blocks of its own, and levels end.
pub fn levels_begin_and_end()
    ensures begin { LevelsBegin }
    ensures end { LevelsEnd }
{}

/// Words that are 0 are the initial values of variables, where nothing is initialized (16.5.6).
pub fn zeros_are_initial()
    ensures zeros { ZerosAreBlank }
    ensures initial { BlankIsInitial }
{}

/// An object of a type of which no component is allocatable has no block beneath it, and neither has an array of such objects.
pub fn flat_objects_hold_nothing()
    ensures { FlatObjectsHoldNothing }
{}
