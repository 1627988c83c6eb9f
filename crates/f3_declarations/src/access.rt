//! Access statements, and the access of a type.

ghost use Rattle.std.specs.Prelude.{Option};
ghost use Rattle.f3_places.specs.declared.source.Place.{Place};
ghost use Rattle.f3_tree.specs.declared.declaration.Accessibility.{Accessibility};
ghost use Rattle.f3_tree.specs.Declarations.{access_view};
ghost use Rattle.f3_words.specs.Reads.{Reads, Finds};
ghost use Rattle.f3_declarations.specs.Specifications.{IsAccessList, IsAccess, EatsAccess, EatsTypeAccess};

use f3_places::source::Place;
use f3_reading::names::name_list;
use f3_reading::signs::{is_over, skip};
use f3_tree::declaration::{Access, Accessibility};
use f3_tree::expression::Name;
use f3_words::error::ReadError;
use f3_words::item::{Item, Keyword, Word};
use f3_words::reading::front;
use std::alloc::Global;

/// The list of an access statement; none where there is no token.
#[tactic(auto, unfolding(crate::specs::Specifications::IsAccessList))]
fn access_list(alloc: Global, items: &[Item]) -> Result<Vec<Name>, ReadError>
    ensures { Finds IsAccessList (λ v. v.items) result items.now }
{
    if is_over(items) {
        return Ok(Vec::new(alloc));
    }
    Ok(name_list(alloc, items)?)
}

/// The access statement whose keyword stands at the place, from the tokens behind that.
#[tactic(auto, unfolding(crate::specs::Specifications::IsAccess))]
pub fn access(
    alloc: Global,
    place: Place,
    accessibility: Accessibility,
    items: &[Item],
) -> Result<Access, ReadError>
    ensures { Finds (IsAccess place accessibility) access_view result items.now }
{
    let names = access_list(alloc, items)?;
    Ok(Access {
        place,
        accessibility,
        names,
    })
}

/// The access specifier at the front.
#[tactic(auto, unfolding(crate::specs::Specifications::EatsAccess))]
fn specifier(items: &[Item]) -> Result<((Place, Accessibility), &[Item]), ReadError>
    ensures { Reads EatsAccess (λ (x : Place × Accessibility). x) result items.now }
{
    match front(items) {
        None => Err(ReadError::NoForm),
        Some((first, tail)) => match first.word {
            Word::Name(Keyword::Public) => Ok(((first.place, Accessibility::Public), tail)),
            Word::Name(Keyword::Private) => Ok(((first.place, Accessibility::Private), tail)),
            _ => Err(ReadError::NoForm),
        },
    }
}

/// The access of a type with the comma before it and the `::` behind it.
#[tactic(auto, unfolding(crate::specs::Specifications::EatsTypeAccess))]
pub fn type_access(items: &[Item]) -> Result<((Place, Accessibility), &[Item]), ReadError>
    ensures { Reads EatsTypeAccess (λ (x : Place × Accessibility). x) result items.now }
{
    let rest = skip(Word::Comma, items)?;
    let (access, rest) = specifier(rest)?;
    let rest = skip(Word::Colons, rest)?;
    Ok((access, rest))
}
