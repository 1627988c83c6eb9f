//! Laws on what words and names spell; no run stands in them.

ghost use Rattle.f3_reading.specs.Laws.{WordsAreOne, NamesAreOne};

/// The first token is of one word, and what stands behind it is the same; names, lists of them and what a statement
/// has of names alone are spelled in one way.
pub fn words_and_names_are_one()
    ensures words { WordsAreOne }
    ensures names { NamesAreOne }
{}
