//! Type specifiers and attributes.

ghost use Rattle.std.specs.Prelude.{◌<◌, ◌≤◌, length, map, IfOk};
ghost use Rattle.f3_tree.specs.declared.declaration.Intent.{Intent};
ghost use Rattle.f3_tree.specs.declared.declaration.TypeSpecifier.{TypeSpecifier};
ghost use Rattle.f3_tree.specs.Declarations.{attribute_view, placed_view};
ghost use Rattle.f3_words.specs.Reads.{Reads};
ghost use Rattle.f3_declarations.specs.Specifications.{EatsDerived, EatsSpecifier, EatsSpecifierOf, EatsIntent, EatsEnclosedIntent, EatsDimension, EatsIntentOf, EatsAttributeOf, EatsAttribute, EatsAttributes};

use crate::kinds::integer;
use crate::shapes::shape;
use f3_reading::lists::others;
use f3_reading::names::enclosed_name;
use f3_reading::signs::skip;
use f3_tree::declaration::{Accessibility, Attribute, AttributeKind, Intent, TypeSpecifier};
use f3_words::error::ReadError;
use f3_words::item::{Item, Keyword, Word};
use f3_words::reading::front;
use std::alloc::Global;

/// The type behind TYPE.
#[tactic(auto, unfolding(crate::specs::Specifications::EatsDerived))]
fn derived(items: &[Item]) -> Result<(TypeSpecifier, &[Item]), ReadError>
    ensures read { Reads EatsDerived (λ (s : TypeSpecifier). s) result items.now }
    ensures shorter { IfOk result (λ x. length x.1.now ≤ length items.now) }
{
    let (name, rest) = enclosed_name(items)?;
    Ok((TypeSpecifier::Derived(name), rest))
}

/// The type specifier that begins with the keyword.
pub fn specifier_of(keyword: Keyword, items: &[Item]) -> Result<(TypeSpecifier, &[Item]), ReadError>
    ensures read { Reads (EatsSpecifierOf keyword) (λ (s : TypeSpecifier). s) result items.now }
    ensures shorter { IfOk result (λ x. length x.1.now ≤ length items.now) }
{
    match keyword {
        Keyword::Integer => integer(items),
        Keyword::Logical => Ok((TypeSpecifier::Logical, items)),
        Keyword::Type => derived(items),
        _ => Err(ReadError::NoForm),
    }
}

/// The specifier at the front.
#[tactic(auto, unfolding(crate::specs::Specifications::EatsSpecifier))]
pub fn specifier(items: &[Item]) -> Result<(TypeSpecifier, &[Item]), ReadError>
    ensures read { Reads EatsSpecifier (λ (s : TypeSpecifier). s) result items.now }
    ensures shorter { IfOk result (λ x. length x.1.now < length items.now) }
{
    match front(items) {
        None => Err(ReadError::NoForm),
        Some((first, tail)) => match first.word {
            Word::Name(keyword) => {
                let (specifier, rest) = specifier_of(keyword, tail)?;
                Ok((specifier, rest))
            }
            _ => Err(ReadError::NoForm),
        },
    }
}

/// The intent at the front.
#[tactic(auto, unfolding(crate::specs::Specifications::EatsIntent, f3_reading::specs::Parts::EatsWord, f3_reading::specs::Parts::Lacks))]
fn intent(items: &[Item]) -> Result<(Intent, &[Item]), ReadError>
    ensures read { Reads EatsIntent (λ (i : Intent). i) result items.now }
    ensures shorter { IfOk result (λ x. length x.1.now ≤ length items.now) }
{
    match front(items) {
        None => Err(ReadError::NoForm),
        Some((first, tail)) => match first.word {
            Word::Name(Keyword::In) => {
                match front(tail) {
                    Some((second, rest)) => match second.word {
                        Word::Name(Keyword::Out) => Ok((Intent::InOut, rest)),
                        _ => Ok((Intent::In, tail)),
                    },
                    None => Ok((Intent::In, tail)),
                }
            }
            Word::Name(Keyword::Out) => Ok((Intent::Out, tail)),
            Word::Name(Keyword::InOut) => Ok((Intent::InOut, tail)),
            _ => Err(ReadError::NoForm),
        },
    }
}

/// The intent in parentheses at the front.
#[tactic(auto, unfolding(crate::specs::Specifications::EatsEnclosedIntent))]
fn enclosed_intent(items: &[Item]) -> Result<(Intent, &[Item]), ReadError>
    ensures read { Reads EatsEnclosedIntent (λ (i : Intent). i) result items.now }
    ensures shorter { IfOk result (λ x. length x.1.now ≤ length items.now) }
{
    let rest = skip(Word::Open, items)?;
    let (intent, rest) = intent(rest)?;
    let rest = skip(Word::Close, rest)?;
    Ok((intent, rest))
}

/// What stands behind DIMENSION.
#[tactic(auto, unfolding(crate::specs::Specifications::EatsDimension))]
fn dimension(alloc: Global, items: &[Item]) -> Result<(AttributeKind, &[Item]), ReadError>
    ensures read { Reads EatsDimension attribute_view result items.now }
    ensures shorter { IfOk result (λ x. length x.1.now ≤ length items.now) }
{
    let (shape, rest) = shape(alloc, items)?;
    Ok((AttributeKind::Dimension(shape), rest))
}

/// What stands behind INTENT.
#[tactic(auto, unfolding(crate::specs::Specifications::EatsIntentOf))]
fn intent_of(items: &[Item]) -> Result<(AttributeKind, &[Item]), ReadError>
    ensures read { Reads EatsIntentOf attribute_view result items.now }
    ensures shorter { IfOk result (λ x. length x.1.now ≤ length items.now) }
{
    let (intent, rest) = enclosed_intent(items)?;
    Ok((AttributeKind::Intent(intent), rest))
}

/// The attribute that begins with the keyword.
fn attribute_of(
    alloc: Global,
    keyword: Keyword,
    items: &[Item],
) -> Result<(AttributeKind, &[Item]), ReadError>
    ensures read { Reads (EatsAttributeOf keyword) attribute_view result items.now }
    ensures shorter { IfOk result (λ x. length x.1.now ≤ length items.now) }
{
    match keyword {
        Keyword::Public => Ok((AttributeKind::Access(Accessibility::Public), items)),
        Keyword::Private => Ok((AttributeKind::Access(Accessibility::Private), items)),
        Keyword::Protected => Ok((AttributeKind::Protected, items)),
        Keyword::Parameter => Ok((AttributeKind::Parameter, items)),
        Keyword::Save => Ok((AttributeKind::Save, items)),
        Keyword::Allocatable => Ok((AttributeKind::Allocatable, items)),
        Keyword::Dimension => dimension(alloc, items),
        Keyword::Intent => intent_of(items),
        _ => Err(ReadError::NoForm),
    }
}

/// The attribute at the front.
#[tactic(auto, unfolding(crate::specs::Specifications::EatsAttribute))]
fn attribute(alloc: Global, items: &[Item]) -> Result<(Attribute, &[Item]), ReadError>
    ensures read { Reads EatsAttribute placed_view result items.now }
    ensures shorter { IfOk result (λ x. length x.1.now < length items.now) }
{
    match front(items) {
        None => Err(ReadError::NoForm),
        Some((first, tail)) => match first.word {
            Word::Name(keyword) => {
                let (kind, rest) = attribute_of(alloc, keyword, tail)?;
                Ok((
                    Attribute {
                        place: first.place,
                        kind,
                    },
                    rest,
                ))
            }
            _ => Err(ReadError::NoForm),
        },
    }
}

/// The attributes behind a specifier, each behind a comma.
pub fn attributes(alloc: Global, items: &[Item]) -> Result<(Vec<Attribute>, &[Item]), ReadError>
    ensures read { Reads EatsAttributes (λ v. map placed_view v.items) result items.now }
    ensures shorter { IfOk result (λ x. length x.1.now ≤ length items.now) }
{
    others(alloc, items, |tokens| attribute(alloc, tokens))
}
