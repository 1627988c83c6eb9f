//! The kind of INTEGER.

ghost use Rattle.std.specs.Prelude.{◌≤◌, ◌<◌, length, IfOk, Option};
ghost use Rattle.f3_tree.specs.declared.expression.IntegerKind.{IntegerKind};
ghost use Rattle.f3_tree.specs.declared.declaration.TypeSpecifier.{TypeSpecifier};
ghost use Rattle.f3_words.specs.Reads.{Reads};
ghost use Rattle.f3_reading.specs.Parts.{Skips};
ghost use Rattle.f3_declarations.specs.Kinds.{EatsKindName, EatsKindDigit, EatsKindBehind, EatsKindPerhaps, EatsInteger};

use f3_reading::lists::perhaps;
use f3_reading::signs::{behind, skip};
use f3_tree::declaration::TypeSpecifier;
use f3_tree::expression::IntegerKind;
use f3_words::error::ReadError;
use f3_words::item::{Item, Keyword, Word};
use f3_words::reading::front;

/// What stands behind `KIND =`, or all tokens where KIND is not the first.
#[tactic(auto, unfolding(crate::specs::Kinds::EatsKindName, f3_reading::specs::Parts::EatsWord, f3_reading::specs::Parts::Lacks))]
fn skip_name(items: &[Item]) -> Result<&[Item], ReadError>
    ensures read { Skips EatsKindName result items.now }
    ensures shorter { IfOk result (λ x. length x.now ≤ length items.now) }
{
    match behind(Word::Name(Keyword::Kind), items) {
        Some(tail) => skip(Word::Equals, tail),
        None => Ok(items),
    }
}

/// The digit at the front that names a kind.
#[tactic(auto, unfolding(crate::specs::Kinds::EatsKindDigit, f3_reading::specs::Parts::EatsWord))]
fn digit(items: &[Item]) -> Result<(IntegerKind, &[Item]), ReadError>
    ensures read { Reads EatsKindDigit (λ (k : IntegerKind). k) result items.now }
    ensures shorter { IfOk result (λ x. length x.1.now < length items.now) }
{
    match front(items) {
        None => Err(ReadError::NoForm),
        Some((first, tail)) => match first.word {
            Word::KindDigit(kind) => Ok((kind, tail)),
            _ => Err(ReadError::NoForm),
        },
    }
}

/// The kind behind its open parenthesis.
#[tactic(auto, unfolding(crate::specs::Kinds::EatsKindBehind))]
fn kind_behind(items: &[Item]) -> Result<(IntegerKind, &[Item]), ReadError>
    ensures read { Reads EatsKindBehind (λ (k : IntegerKind). k) result items.now }
    ensures shorter { IfOk result (λ x. length x.1.now < length items.now) }
{
    let rest = skip_name(items)?;
    let (kind, rest) = digit(rest)?;
    let rest = skip(Word::Close, rest)?;
    Ok((kind, rest))
}

/// The kind in parentheses at the front, where there is one.
fn kind_perhaps(items: &[Item]) -> Result<(Option<IntegerKind>, &[Item]), ReadError>
    ensures read { Reads EatsKindPerhaps (λ (k : Option IntegerKind). k) result items.now }
    ensures shorter { IfOk result (λ x. length x.1.now ≤ length items.now) }
{
    perhaps(Word::Open, items, kind_behind)
}

/// What stands behind INTEGER: its kind, or nothing where it is of kind 4.
#[tactic(auto, unfolding(crate::specs::Kinds::EatsInteger))]
pub fn integer(items: &[Item]) -> Result<(TypeSpecifier, &[Item]), ReadError>
    ensures read { Reads EatsInteger (λ (s : TypeSpecifier). s) result items.now }
    ensures shorter { IfOk result (λ x. length x.1.now ≤ length items.now) }
{
    let (kind, rest) = kind_perhaps(items)?;
    Ok((
        TypeSpecifier::Integer(kind.unwrap_or(IntegerKind::Four)),
        rest,
    ))
}
