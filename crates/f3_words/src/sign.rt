//! What signs, operators between dots and logical literals are.

ghost use Rattle.std.specs.Prelude.{◌≡◌, [], ◌∷◌};
ghost use Rattle.f3_words.specs.declared.item.Word.TheVariants.{Other};
ghost use Rattle.f3_words.specs.Tables.{found};
ghost use Rattle.f3_words.specs.Signs.{singles, doubles, sign_of, dot_word_of, truth_of};

use crate::item::Word;
use f3_tree::expression::{Operator, Relation};

/// A sign of one character.
fn single(byte: u8) -> Word
    ensures { result ≡ found singles Other (byte ∷ []) }
{
    match byte {
        b'*' => Word::Operator(Operator::Multiply),
        b'/' => Word::Operator(Operator::Divide),
        b'+' => Word::Operator(Operator::Add),
        b'-' => Word::Operator(Operator::Subtract),
        b'<' => Word::Relation(Relation::Less),
        b'>' => Word::Relation(Relation::Greater),
        b'=' => Word::Equals,
        b',' => Word::Comma,
        b':' => Word::Colon,
        b'%' => Word::Percent,
        b'(' => Word::Open,
        b')' => Word::Close,
        b'[' => Word::OpenBracket,
        b']' => Word::CloseBracket,
        _ => Word::Other,
    }
}

/// A sign of two characters.
fn double(first: u8, second: u8) -> Word
    ensures { result ≡ found doubles Other (first ∷ second ∷ []) }
{
    match (first, second) {
        (b'*', b'*') => Word::Operator(Operator::Power),
        (b'=', b'=') => Word::Relation(Relation::Equal),
        (b'/', b'=') => Word::Relation(Relation::NotEqual),
        (b'<', b'=') => Word::Relation(Relation::LessOrEqual),
        (b'>', b'=') => Word::Relation(Relation::GreaterOrEqual),
        (b'=', b'>') => Word::Arrow,
        (b':', b':') => Word::Colons,
        (b'(', b'/') => Word::OpenSlash,
        (b'/', b')') => Word::CloseSlash,
        _ => Word::Other,
    }
}

/// The operator or separator that a sign is.
#[tactic(auto, unfolding(crate::specs::Signs::sign_of))]
pub fn sign(text: &[u8]) -> Word
    ensures { result ≡ sign_of text.now }
{
    match text {
        [byte] => single(*byte),
        [first, second] => double(*first, *second),
        _ => Word::Other,
    }
}

/// The operator between dots that a text is; letters compare without case.
#[tactic(auto, unfolding(crate::specs::Signs::dot_word_of))]
pub fn dot_word(text: &[u8]) -> Word
    ensures { result ≡ dot_word_of text.now }
{
    if text.eq_ignore_ascii_case(b".not.") {
        Word::Not
    } else if text.eq_ignore_ascii_case(b".and.") {
        Word::Operator(Operator::And)
    } else if text.eq_ignore_ascii_case(b".or.") {
        Word::Operator(Operator::Or)
    } else if text.eq_ignore_ascii_case(b".eqv.") {
        Word::Operator(Operator::Equivalent)
    } else if text.eq_ignore_ascii_case(b".neqv.") {
        Word::Operator(Operator::NotEquivalent)
    } else if text.eq_ignore_ascii_case(b".eq.") {
        Word::Relation(Relation::Equal)
    } else if text.eq_ignore_ascii_case(b".ne.") {
        Word::Relation(Relation::NotEqual)
    } else if text.eq_ignore_ascii_case(b".lt.") {
        Word::Relation(Relation::Less)
    } else if text.eq_ignore_ascii_case(b".le.") {
        Word::Relation(Relation::LessOrEqual)
    } else if text.eq_ignore_ascii_case(b".gt.") {
        Word::Relation(Relation::Greater)
    } else if text.eq_ignore_ascii_case(b".ge.") {
        Word::Relation(Relation::GreaterOrEqual)
    } else {
        Word::Other
    }
}

/// The logical literal that a text is; letters compare without case.
#[tactic(auto, unfolding(crate::specs::Signs::truth_of))]
pub fn truth(text: &[u8]) -> Word
    ensures { result ≡ truth_of text.now }
{
    if text.eq_ignore_ascii_case(b".true.") {
        Word::Truth(true)
    } else if text.eq_ignore_ascii_case(b".false.") {
        Word::Truth(false)
    } else {
        Word::Other
    }
}
