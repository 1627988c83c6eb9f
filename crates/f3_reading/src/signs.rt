//! One token at the front.

ghost use Rattle.std.specs.Prelude.{◌≡◌, ◌≢◌, ◌<◌, true, false, [], ◌∷◌, length, IfOk, MatchOption};
ghost use Rattle.f3_tree.specs.declared.expression.Name.{Name};
ghost use Rattle.f3_words.specs.declared.item.Word.TheVariants as sign;
ghost use Rattle.f3_words.specs.Reads.{Reads};
ghost use Rattle.f3_reading.specs.Parts.{EatsWord, EatsName, Lacks, IsBehind, Skips};

use f3_tree::expression::{IntegerKind, Name, Operator, Relation};
use f3_words::error::ReadError;
use f3_words::item::{Item, Word};
use f3_words::reading::{front, is_keyword, name_front};

/// Whether a word is this operator.
fn is_operator(word: Word, operator: Operator) -> bool
    ensures same { result ≡ true → word ≡ sign.Operator operator }
    ensures not { result ≡ false → word ≢ sign.Operator operator }
{
    match word {
        Word::Operator(other) => other == operator,
        _ => false,
    }
}

/// Whether a word is this relation.
fn is_relation(word: Word, relation: Relation) -> bool
    ensures same { result ≡ true → word ≡ sign.Relation relation }
    ensures not { result ≡ false → word ≢ sign.Relation relation }
{
    match word {
        Word::Relation(other) => other == relation,
        _ => false,
    }
}

/// Whether two words are the same.
fn is(word: Word, other: Word) -> bool
    ensures same { result ≡ true → other ≡ word }
    ensures not { result ≡ false → other ≢ word }
{
    match word {
        Word::Name(keyword) => is_keyword(other, keyword),
        Word::Operator(operator) => is_operator(other, operator),
        Word::Relation(relation) => is_relation(other, relation),
        Word::Truth(true) => matches!(other, Word::Truth(true)),
        Word::Truth(false) => matches!(other, Word::Truth(false)),
        Word::KindDigit(IntegerKind::Four) => matches!(other, Word::KindDigit(IntegerKind::Four)),
        Word::KindDigit(IntegerKind::Eight) => matches!(other, Word::KindDigit(IntegerKind::Eight)),
        Word::ShortInteger => matches!(other, Word::ShortInteger),
        Word::LongInteger => matches!(other, Word::LongInteger),
        Word::Text => matches!(other, Word::Text),
        Word::Not => matches!(other, Word::Not),
        Word::Equals => matches!(other, Word::Equals),
        Word::Arrow => matches!(other, Word::Arrow),
        Word::Comma => matches!(other, Word::Comma),
        Word::Colon => matches!(other, Word::Colon),
        Word::Colons => matches!(other, Word::Colons),
        Word::Percent => matches!(other, Word::Percent),
        Word::Open => matches!(other, Word::Open),
        Word::Close => matches!(other, Word::Close),
        Word::OpenSlash => matches!(other, Word::OpenSlash),
        Word::CloseSlash => matches!(other, Word::CloseSlash),
        Word::OpenBracket => matches!(other, Word::OpenBracket),
        Word::CloseBracket => matches!(other, Word::CloseBracket),
        Word::Other => matches!(other, Word::Other),
    }
}

/// Whether nothing is left.
pub fn is_over(items: &[Item]) -> bool
    ensures is { result ≡ true → items.now ≡ [] }
    ensures not { result ≡ false → items.now ≢ [] }
{
    items.is_empty()
}

/// What stands behind a token of this word, where it is the first.
#[tactic(auto, unfolding(crate::specs::Parts::EatsWord, crate::specs::Parts::Lacks))]
pub fn behind(word: Word, items: &[Item]) -> Option<&[Item]>
    ensures { IsBehind word result items.now }
{
    match front(items) {
        Some((item, tail)) => {
            if is(word, item.word) {
                Some(tail)
            } else {
                None
            }
        }
        None => None,
    }
}

/// What stands behind a token of this word. NoForm: it is not the first.
#[tactic(auto, unfolding(crate::specs::Parts::EatsWord, crate::specs::Parts::Lacks))]
pub fn skip(word: Word, items: &[Item]) -> Result<&[Item], ReadError>
    ensures read { Skips (EatsWord word) result items.now }
    ensures shorter { IfOk result (λ x. length x.now < length items.now) }
{
    match behind(word, items) {
        Some(tail) => Ok(tail),
        None => Err(ReadError::NoForm),
    }
}

/// The name at the front. NoForm: none stands there.
#[tactic(auto, unfolding(crate::specs::Parts::EatsName))]
pub fn name(items: &[Item]) -> Result<(Name, &[Item]), ReadError>
    ensures read { Reads EatsName (λ (n : Name). n) result items.now }
    ensures shorter { IfOk result (λ x. length x.1.now < length items.now) }
{
    match name_front(items) {
        Some((item, tail)) => Ok((item.name(), tail)),
        None => Err(ReadError::NoForm),
    }
}
