//! Laws of tokens.

ghost use Rattle.f3_lex.specs.Examples.{Examples};
ghost use Rattle.f3_lex.specs.Laws.{TokensAreLongest, NamesAreAscii};

/// The tokens of a statement stand in order within it, with blanks alone between them, and each is the longest at its
/// place.
pub fn tokens_are_longest()
    ensures { TokensAreLongest }
{}

/// A name is ASCII.
pub fn names_are_ascii()
    ensures { NamesAreAscii }
{}

/// Some statements have these tokens.
pub fn examples()
    ensures { Examples }
{}
