//! Laws of pins.

ghost use Rattle.f3_room_pins.specs.Laws.{BlocksAreOnce, PinnedIsLent, AllAreFree, VacantIsFree, LendingPins, EndingUnpins, ChangesKeepPins, MovesKeepPins, LevelsBeginUnpinned, LevelsEndUnpinned};
ghost use Rattle.f3_room_pins.specs.Laws.{WordsKeepPins, AllocatingKeepsPins, FreeingKeepsPins, MovingKeepsPins};

/// A path goes through each block at most once.
pub fn blocks_are_once()
    ensures { BlocksAreOnce }
{}

/// The block of what an allocatable holds is pinned exactly where a lent reference goes through its contents; where none does, no block
/// of all that is held there is pinned. None goes through the contents of one that holds nothing.
pub fn pinned_is_lent()
    ensures exact { PinnedIsLent }
    ensures beneath { AllAreFree }
    ensures vacant { VacantIsFree }
{}

/// Where a reference is lent, each block along its path is pinned once more, and where that ends, once less.
pub fn lending_is_pinning()
    ensures begin { LendingPins }
    ensures end { EndingUnpins }
{}

/// Where something else becomes held in a part, or what it holds goes over to another, and no block of what was held there is pinned, each
/// block is pinned as often as it should be, and each path that is lent leads to the part to which it led.
pub fn changes_keep_pins()
    ensures changes { ChangesKeepPins }
    ensures moves { MovesKeepPins }
{}

/// So it is where a word is written, and where what an allocatable holds is allocated, freed or moved (ISO/IEC 1539-1:2004, 6.3, 13.7.82).
pub fn words_keep_pins()
    ensures words { WordsKeepPins }
    ensures allocating { AllocatingKeepsPins }
    ensures freeing { FreeingKeepsPins }
    ensures moving { MovingKeepsPins }
{}

/// So it is where a level begins whose blocks are not pinned, and where levels end of whose variables nothing is lent.
pub fn levels_keep_pins()
    ensures begin { LevelsBeginUnpinned }
    ensures end { LevelsEndUnpinned }
{}
