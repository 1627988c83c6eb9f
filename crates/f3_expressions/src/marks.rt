//! Signs at the front.

ghost use Rattle.f3_words.specs.Reads.{IsFront};
ghost use Rattle.f3_words.specs.Lists.{starts};
ghost use Rattle.std.specs.Prelude.{◌≡◌};
ghost use Rattle.f3_expressions.specs.Readings.{HasKeyword, HasNot, HasCloser, ends_bound};

use f3_reading::signs;
use f3_tree::expression::Name;
use f3_words::item::{Item, Word};
use f3_words::reading::{front, name_front};

/// What stands behind this word, where it is the first.
pub fn behind(word: Word, items: &[Item]) -> Option<&[Item]>
    ensures { IsFront word result items.now }
{
    signs::behind(word, items)
}

/// What stands behind the sign that closes an array constructor, opened by this one.
pub fn behind_closer(opener: Word, items: &[Item]) -> Option<&[Item]>
    ensures { HasCloser opener result items.now }
{
    match opener {
        Word::OpenBracket => behind(Word::CloseBracket, items),
        Word::OpenSlash => behind(Word::CloseSlash, items),
        _ => None,
    }
}

/// The `.NOT.` at the front, and what stands behind it.
pub fn not_front(items: &[Item]) -> Option<(Item, &[Item])>
    ensures { HasNot result items.now }
{
    match front(items) {
        Some((item, tail)) => match item.word {
            Word::Not => Some((item, tail)),
            _ => None,
        },
        None => None,
    }
}

/// The keyword of an argument at the front, and what stands behind its `=`.
pub fn keyword_front(items: &[Item]) -> Option<(Name, &[Item])>
    ensures { HasKeyword result items.now }
{
    match name_front(items) {
        Some((item, tail)) => match behind(Word::Equals, tail) {
            Some(rest) => Some((item.name(), rest)),
            None => None,
        },
        None => None,
    }
}

/// Whether a sign stands at the front that ends a bound.
pub fn bound_ends(items: &[Item]) -> bool
    ensures { result ≡ starts ends_bound items.now }
{
    match front(items) {
        Some((item, _)) => match item.word {
            Word::Colon | Word::Comma | Word::Close => true,
            _ => false,
        },
        None => false,
    }
}
