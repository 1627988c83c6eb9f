//! Laws of activations whose variables are words of blocks.

ghost use Rattle.f3_room_frames.specs.Initial.{InitialWordsAreInitial, InitialWordsAreEnough, ZerosAreInitial};
ghost use Rattle.f3_room_frames.specs.Laws.{VariablesAreWords, WordsArePut, LocalsStand, BlocksHaveWords};
ghost use Rattle.f3_room_frames.specs.Laws.{ExtrasChangeNothing, OwnExtrasChangeNothing, KeptBlocksKeep};
ghost use Rattle.f3_room_frames.specs.Laws.{ActivationsBegin, ActivationsEnter, ActivationsBeginWith, ActivationsEnterWith, ActivationsLeave, ActivationsLeaveWithAll};

/// What a scalar part of a variable holds, of an activation or of the whole run, is the scalar that its word is.
pub fn variables_are_words()
    ensures { VariablesAreWords }
{}

/// Where that word is another, it holds another scalar, and nothing else changes.
pub fn words_are_put()
    ensures { WordsArePut }
{}

/// A variable of the activation at work stands in its block, or in one that is held there.
pub fn locals_stand()
    ensures { LocalsStand }
{}

/// The blocks of variables have a word for each, and are apart.
pub fn blocks_have_words()
    ensures { BlocksHaveWords }
{}

/// A word behind the variables of a block is of none: where it is another, nothing changes; nor does anything where blocks of no variable
/// change.
pub fn extras_change_nothing()
    ensures every { ExtrasChangeNothing }
    ensures own { OwnExtrasChangeNothing }
    ensures others { KeptBlocksKeep }
{}

/// One activation more, with a new block, is one level for what is held for it and one for its variables, whose words are all 0; the
/// main program's has the latter alone.
pub fn activations_enter()
    ensures first { ActivationsBegin }
    ensures others { ActivationsEnter }
{}

/// So it is with other words in that block, and where allocatables hold something: its level has the values that they are.
pub fn activations_enter_with()
    ensures first { ActivationsBeginWith }
    ensures others { ActivationsEnterWith }
{}

/// Where the latest activation ends with its block, and with the blocks of what its allocatables hold, its levels do.
pub fn activations_leave()
    ensures bare { ActivationsLeave }
    ensures all { ActivationsLeaveWithAll }
{}

/// Variables whose words are those of their initial values have these (16.5); and where none are given, words that are all 0 are.
pub fn initial_words()
    ensures given { InitialWordsAreInitial }
    ensures enough { InitialWordsAreEnough }
    ensures bare { ZerosAreInitial }
{}
