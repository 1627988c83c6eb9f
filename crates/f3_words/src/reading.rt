//! Reading from left to right.

ghost use Rattle.std.specs.Prelude.{◌≡◌, ◌≢◌, true, false, [], ◌∷◌, MatchOption};
ghost use Rattle.f3_words.specs.declared.item.Word.TheVariants.{Name};
ghost use Rattle.f3_words.specs.Words.{is_name};
ghost use Rattle.f3_words.specs.Reads.{IsFront, IsStart};

use crate::item::{Item, Keyword, Word};

/// The first token and the others.
pub fn front(items: &[Item]) -> Option<(Item, &[Item])>
    ensures { MatchOption result (items.now ≡ []) (λ x. items.now ≡ x.0 ∷ x.1.now) }
{
    match items {
        [item, tail @ ..] => Some((*item, tail)),
        [] => None,
    }
}

/// What stands behind this keyword, where it is the first token.
pub fn behind_keyword(keyword: Keyword, items: &[Item]) -> Option<&[Item]>
    ensures { IsFront (Name keyword) result items.now }
{
    match name_front(items) {
        Some((item, tail)) => {
            if is_keyword(item.word, keyword) {
                Some(tail)
            } else {
                None
            }
        }
        None => None,
    }
}

/// Whether a word is the name that may be this keyword.
pub fn is_keyword(word: Word, keyword: Keyword) -> bool
    ensures is { result ≡ true → word ≡ Name keyword }
    ensures not { result ≡ false → word ≢ Name keyword }
{
    match word {
        Word::Name(k) => k == keyword,
        _ => false,
    }
}

/// The name at the front and what stands behind it.
pub fn name_front(items: &[Item]) -> Option<(Item, &[Item])>
    ensures { IsStart is_name result items.now }
{
    match front(items) {
        Some((item, tail)) => match item.word {
            Word::Name(_) => Some((item, tail)),
            _ => None,
        },
        None => None,
    }
}
