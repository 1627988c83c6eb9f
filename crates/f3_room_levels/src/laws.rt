//! Laws of the words with which variables begin.

ghost use Rattle.f3_room_levels.specs.Laws.{InitialWordsAreEnough, InitialWordsAreInitial, LevelsStandAlone};

/// Variables whose words are those of their initial values have these, with components that are initialized at any depth
/// (ISO/IEC 1539-1:2004, 16.5.6).
pub fn initial_words_are_initial()
    ensures enough { InitialWordsAreEnough }
    ensures initial { InitialWordsAreInitial }
{}

/// The variables of a level of a sound store stand in blocks of their own, as those that end.
pub fn levels_stand_alone()
    ensures { LevelsStandAlone }
{}
