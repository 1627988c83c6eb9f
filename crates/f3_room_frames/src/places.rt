//! Laws of where parts of variables stand, and of what words of allocatables tell.

ghost use Rattle.f3_room_frames.specs.Laws.{PartsArePlaced, PlacedParts, HoldersArePlaced, HoldersAreFound, HoldersAreTold, HeldPartsArePlaced, AllocationsAreKept};

/// A scalar part whose way goes through no allocatable is a word of its variable that its type tells; so are the words of an allocatable
/// part.
pub fn parts_are_placed()
    ensures ways { PartsArePlaced }
    ensures places { PlacedParts }
    ensures holders { HoldersArePlaced }
{}

/// The words of an allocatable part of a variable, at any depth, tell what it holds.
pub fn holders_are_told()
    ensures told { HoldersAreTold }
    ensures found { HoldersAreFound }
{}

/// A scalar part of what it holds is a word of the block that is named there, which the type and the bounds tell; so are the words of an
/// allocatable part of that.
pub fn held_parts_are_placed()
    ensures { HeldPartsArePlaced }
{}

/// Where the word of a scalar is another, allocatables hold what they held.
pub fn allocations_are_kept()
    ensures { AllocationsAreKept }
{}
