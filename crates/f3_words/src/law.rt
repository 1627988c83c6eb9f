//! Laws of words.

ghost use Rattle.f3_words.specs.Constants.{ConstantsHaveTheirCharacters};
ghost use Rattle.f3_words.specs.Examples.{Examples};

/// A constant as it is written has the characters that were written.
pub fn constants_have_their_characters()
    ensures { ConstantsHaveTheirCharacters }
{}

/// Some texts are these words.
pub fn examples()
    ensures { Examples }
{}
