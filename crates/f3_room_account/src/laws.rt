//! Laws of the words in use.

ghost use Rattle.f3_room_account.specs.Laws.{UsedIsWords, NothingIsLeft, PartsKeepAll, MovesKeepAll, LevelsBeginWithAll, LevelsEndWithAll};
ghost use Rattle.f3_room_account.specs.Laws.{WordsKeepAll, AllocatingKeepsAll, FreeingKeepsAll, MovingKeepsAll};

/// The words in use are exactly those that the values of the store ask for.
pub fn used_is_words()
    ensures { UsedIsWords }
{}

/// Where no level is left and nothing is allocated, the block of the variables that live for the whole run is all that is in use.
pub fn nothing_is_left()
    ensures { NothingIsLeft }
{}

/// Where only what becomes held in a part is taken, and what was held there is given back, each live block stays one of the store's.
pub fn changes_keep_all()
    ensures parts { PartsKeepAll }
    ensures moves { MovesKeepAll }
{}

/// So it does where a word is written, and where what an allocatable holds is allocated, freed or moved (ISO/IEC 1539-1:2004, 6.3, 13.7.82).
pub fn words_keep_all()
    ensures words { WordsKeepAll }
    ensures allocating { AllocatingKeepsAll }
    ensures freeing { FreeingKeepsAll }
    ensures moving { MovingKeepsAll }
{}

/// So it does where the blocks of a level are taken, and where those of levels are given back.
pub fn levels_keep_all()
    ensures begin { LevelsBeginWithAll }
    ensures end { LevelsEndWithAll }
{}
