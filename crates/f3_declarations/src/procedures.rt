//! SUBROUTINE and FUNCTION statements.

ghost use Rattle.std.specs.Prelude.{◌≡◌, ◌<◌, ◌≤◌, length, IfOk, Option};
ghost use Rattle.f3_tree.specs.declared.expression.Name.{Name};
ghost use Rattle.f3_tree.specs.Tree.{header_view};
ghost use Rattle.f3_words.specs.Lists.{starts};
ghost use Rattle.f3_words.specs.Reads.{Reads, Finds};
ghost use Rattle.f3_declarations.specs.declared.procedures.Prefix.{Prefix};
ghost use Rattle.f3_declarations.specs.declared.procedures.Prefixes.{Prefixes};
ghost use Rattle.f3_declarations.specs.Specifications.{EatsDummies, IsDummiesPerhaps, EatsResultPerhaps, IsSubroutine, IsFunction, IsProcedureOf, IsProcedureBehind, IsHeader, is_prefix, EatsTyped, EatsPrefixOf, EatsPrefix, EatsPrefixes, with_prefix};

use crate::attributes::specifier_of;
use f3_places::source::Place;
use f3_reading::lists::perhaps;
use f3_reading::names::{enclosed_name, names_perhaps};
use f3_reading::signs::{is_over, name, skip};
use f3_tree::declaration::TypeSpecifier;
use f3_tree::expression::Name;
use f3_tree::program::{Header, ProcedureKind};
use f3_words::error::ReadError;
use f3_words::item::{Item, Keyword, Word};
use f3_words::reading::front;
use std::alloc::Global;

/// What may stand before SUBROUTINE or FUNCTION.
#[derive(Clone, Copy)]
pub enum Prefix {
    Pure,
    Recursive,
    Typed(TypeSpecifier),
}

/// What stands before SUBROUTINE or FUNCTION.
#[derive(Clone, Copy)]
pub struct Prefixes {
    pub pure: bool,
    pub recursive: bool,
    pub specifier: Option<TypeSpecifier>,
}

impl Prefixes {
    /// These and one more; None where one of its kind stands there.
    fn with(self, prefix: Prefix) -> Option<Prefixes>
        ensures { result ≡ with_prefix self prefix }
    {
        match prefix {
            Prefix::Pure => {
                if self.pure {
                    None
                } else {
                    Some(Prefixes {
                        pure: true,
                        recursive: self.recursive,
                        specifier: self.specifier,
                    })
                }
            }
            Prefix::Recursive => {
                if self.recursive {
                    None
                } else {
                    Some(Prefixes {
                        pure: self.pure,
                        recursive: true,
                        specifier: self.specifier,
                    })
                }
            }
            Prefix::Typed(specifier) => match self.specifier {
                Some(_) => None,
                None => Some(Prefixes {
                    pure: self.pure,
                    recursive: self.recursive,
                    specifier: Some(specifier),
                }),
            },
        }
    }
}

/// The type specifier that begins with the keyword, as a prefix.
#[tactic(auto, unfolding(crate::specs::Specifications::EatsTyped))]
fn typed_prefix(keyword: Keyword, items: &[Item]) -> Result<(Prefix, &[Item]), ReadError>
    ensures read { Reads (EatsTyped keyword) (λ (x : Prefix). x) result items.now }
    ensures shorter { IfOk result (λ x. length x.1.now ≤ length items.now) }
{
    let (specifier, rest) = specifier_of(keyword, items)?;
    Ok((Prefix::Typed(specifier), rest))
}

/// The prefix that begins with the keyword.
fn prefix_of(keyword: Keyword, items: &[Item]) -> Result<(Prefix, &[Item]), ReadError>
    ensures read { Reads (EatsPrefixOf keyword) (λ (x : Prefix). x) result items.now }
    ensures shorter { IfOk result (λ x. length x.1.now ≤ length items.now) }
{
    match keyword {
        Keyword::Pure => Ok((Prefix::Pure, items)),
        Keyword::Recursive => Ok((Prefix::Recursive, items)),
        _ => typed_prefix(keyword, items),
    }
}

/// The prefix at the front.
#[tactic(auto, unfolding(crate::specs::Specifications::EatsPrefix))]
fn next_prefix(items: &[Item]) -> Result<(Prefix, &[Item]), ReadError>
    ensures read { Reads EatsPrefix (λ (x : Prefix). x) result items.now }
    ensures shorter { IfOk result (λ x. length x.1.now < length items.now) }
{
    match front(items) {
        None => Err(ReadError::NoForm),
        Some((first, tail)) => match first.word {
            Word::Name(keyword) => {
                let (prefix, rest) = prefix_of(keyword, tail)?;
                Ok((prefix, rest))
            }
            _ => Err(ReadError::NoForm),
        },
    }
}

/// Whether a prefix of a procedure stands at the front.
fn starts_prefix(items: &[Item]) -> bool
    ensures { result ≡ starts is_prefix items.now }
{
    match front(items) {
        Some((item, _)) => match item.word {
            Word::Name(
                Keyword::Pure
                | Keyword::Recursive
                | Keyword::Integer
                | Keyword::Logical
                | Keyword::Type,
            ) => true,
            _ => false,
        },
        None => false,
    }
}

/// The prefixes at the front.
fn all_prefixes(items: &[Item]) -> Result<(Prefixes, &[Item]), ReadError>
    ensures { Reads EatsPrefixes (λ (p : Prefixes). p) result items.now }
{
    let mut found = Prefixes {
        pure: false,
        recursive: false,
        specifier: None,
    };
    let mut rest = items;
    'elements: while starts_prefix(rest) {
        let (element, after) = next_prefix(rest)?;
        match found.with(element) {
            Some(more) => {
                found = more;
                rest = after;
            }
            None => return Err(ReadError::NoForm),
        }
    }
    Ok((found, rest))
}

/// The dummy arguments at the front, with their parentheses.
#[tactic(auto, unfolding(crate::specs::Specifications::EatsDummies))]
fn dummies(alloc: Global, items: &[Item]) -> Result<(Vec<Name>, &[Item]), ReadError>
    ensures { Reads EatsDummies (λ v. v.items) result items.now }
{
    let rest = skip(Word::Open, items)?;
    let (found, rest) = names_perhaps(alloc, rest)?;
    let rest = skip(Word::Close, rest)?;
    Ok((found, rest))
}

/// The dummy arguments that all of the tokens are; none where there is no token.
#[tactic(auto, unfolding(crate::specs::Specifications::IsDummiesPerhaps))]
fn dummies_perhaps(alloc: Global, items: &[Item]) -> Result<Vec<Name>, ReadError>
    ensures { Finds IsDummiesPerhaps (λ v. v.items) result items.now }
{
    if is_over(items) {
        return Ok(Vec::new(alloc));
    }
    let (found, rest) = dummies(alloc, items)?;
    if is_over(rest) {
        Ok(found)
    } else {
        Err(ReadError::NoForm)
    }
}

/// The `RESULT (n)` at the front, where it is written.
fn outcome_perhaps(items: &[Item]) -> Result<(Option<Name>, &[Item]), ReadError>
    ensures { Reads EatsResultPerhaps (λ (n : Option Name). n) result items.now }
{
    perhaps(Word::Name(Keyword::ResultWord), items, enclosed_name)
}

/// The header behind SUBROUTINE.
#[tactic(auto, unfolding(crate::specs::Specifications::IsSubroutine))]
fn subroutine(
    alloc: Global,
    place: Place,
    prefixes: Prefixes,
    items: &[Item],
) -> Result<Header, ReadError>
    ensures { Finds (IsSubroutine place prefixes) header_view result items.now }
{
    match prefixes.specifier {
        Some(_) => Err(ReadError::NoForm),
        None => {
            let (name, rest) = name(items)?;
            let dummies = dummies_perhaps(alloc, rest)?;
            Ok(Header {
                place,
                pure: prefixes.pure,
                recursive: prefixes.recursive,
                kind: ProcedureKind::Subroutine,
                name,
                dummies,
            })
        }
    }
}

/// The header behind FUNCTION.
#[tactic(auto, unfolding(crate::specs::Specifications::IsFunction))]
fn function(
    alloc: Global,
    place: Place,
    prefixes: Prefixes,
    items: &[Item],
) -> Result<Header, ReadError>
    ensures { Finds (IsFunction place prefixes) header_view result items.now }
{
    let (name, rest) = name(items)?;
    let (dummies, rest) = dummies(alloc, rest)?;
    let (outcome, rest) = outcome_perhaps(rest)?;
    if !is_over(rest) {
        return Err(ReadError::NoForm);
    }
    Ok(Header {
        place,
        pure: prefixes.pure,
        recursive: prefixes.recursive,
        kind: ProcedureKind::Function(prefixes.specifier, outcome),
        name,
        dummies,
    })
}

/// The header behind the keyword.
fn procedure_of(
    alloc: Global,
    place: Place,
    prefixes: Prefixes,
    keyword: Keyword,
    items: &[Item],
) -> Result<Header, ReadError>
    ensures { Finds (IsProcedureOf keyword place prefixes) header_view result items.now }
{
    match keyword {
        Keyword::Subroutine => subroutine(alloc, place, prefixes, items),
        Keyword::Function => function(alloc, place, prefixes, items),
        _ => Err(ReadError::NoForm),
    }
}

/// The header behind its prefixes.
#[tactic(auto, unfolding(crate::specs::Specifications::IsProcedureBehind))]
fn procedure_behind(
    alloc: Global,
    place: Place,
    prefixes: Prefixes,
    items: &[Item],
) -> Result<Header, ReadError>
    ensures { Finds (IsProcedureBehind place prefixes) header_view result items.now }
{
    match front(items) {
        None => Err(ReadError::NoForm),
        Some((first, tail)) => match first.word {
            Word::Name(keyword) => Ok(procedure_of(alloc, place, prefixes, keyword, tail)?),
            _ => Err(ReadError::NoForm),
        },
    }
}

/// The header of a procedure at the place that all of the tokens spell.
#[tactic(auto, unfolding(crate::specs::Specifications::IsHeader))]
pub fn header(alloc: Global, place: Place, items: &[Item]) -> Result<Header, ReadError>
    ensures { Finds (IsHeader place) header_view result items.now }
{
    let (prefixes, rest) = all_prefixes(items)?;
    Ok(procedure_behind(alloc, place, prefixes, rest)?)
}
