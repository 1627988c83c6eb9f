//! USE statements.

ghost use Rattle.std.specs.Prelude.{◌<◌, ◌≤◌, length, IfOk};
ghost use Rattle.f3_tree.specs.declared.declaration.Rename.{Rename};
ghost use Rattle.f3_tree.specs.declared.declaration.Only.{Only};
ghost use Rattle.f3_tree.specs.Declarations.{selection_view, use_view};
ghost use Rattle.f3_words.specs.Reads.{Reads, Finds};
ghost use Rattle.f3_reading.specs.Parts.{Skips};
ghost use Rattle.f3_declarations.specs.Specifications.{EatsRename, AreRenames, EatsOnly, AreOnly, EatsOnlyHead, IsOnlyList, IsRenameList, IsSelection, IsUse};

use f3_places::source::Place;
use f3_reading::lists::list;
use f3_reading::names::skip_colons;
use f3_reading::signs::{behind, is_over, name, skip};
use f3_tree::declaration::{Only, Rename, Selection, Use};
use f3_words::error::ReadError;
use f3_words::item::{Item, Keyword, Word};
use std::alloc::Global;

/// The `n => n` at the front.
#[tactic(auto, unfolding(crate::specs::Specifications::EatsRename))]
fn rename(items: &[Item]) -> Result<(Rename, &[Item]), ReadError>
    ensures read { Reads EatsRename (λ (x : Rename). x) result items.now }
    ensures shorter { IfOk result (λ x. length x.1.now < length items.now) }
{
    let (local, rest) = name(items)?;
    let rest = skip(Word::Arrow, rest)?;
    let (original, rest) = name(rest)?;
    Ok((Rename { local, original }, rest))
}

/// The renames at the front, with commas between them.
fn renames(alloc: Global, items: &[Item]) -> Result<(Vec<Rename>, &[Item]), ReadError>
    ensures read { Reads AreRenames (λ v. v.items) result items.now }
    ensures shorter { IfOk result (λ x. length x.1.now ≤ length items.now) }
{
    list(alloc, items, rename)
}

/// The renames behind the name of a module, each behind a comma.
#[tactic(auto, unfolding(crate::specs::Specifications::IsRenameList))]
fn rename_list(alloc: Global, items: &[Item]) -> Result<Vec<Rename>, ReadError>
    ensures { Finds IsRenameList (λ v. v.items) result items.now }
{
    if is_over(items) {
        return Ok(Vec::new(alloc));
    }
    let rest = skip(Word::Comma, items)?;
    let (found, rest) = renames(alloc, rest)?;
    if is_over(rest) {
        Ok(found)
    } else {
        Err(ReadError::NoForm)
    }
}

/// The name or rename at the front.
#[tactic(auto, unfolding(crate::specs::Specifications::EatsOnly, crate::specs::Specifications::EatsRename))]
fn only(items: &[Item]) -> Result<(Only, &[Item]), ReadError>
    ensures read { Reads EatsOnly (λ (x : Only). x) result items.now }
    ensures shorter { IfOk result (λ x. length x.1.now < length items.now) }
{
    let (local, rest) = name(items)?;
    match behind(Word::Arrow, rest) {
        None => Ok((Only::Name(local), rest)),
        Some(tail) => {
            let (original, rest) = name(tail)?;
            Ok((Only::Rename(Rename { local, original }), rest))
        }
    }
}

/// The names and renames at the front, with commas between them.
fn only_list(alloc: Global, items: &[Item]) -> Result<(Vec<Only>, &[Item]), ReadError>
    ensures read { Reads AreOnly (λ v. v.items) result items.now }
    ensures shorter { IfOk result (λ x. length x.1.now ≤ length items.now) }
{
    list(alloc, items, only)
}

/// The list behind `ONLY:`.
#[tactic(auto, unfolding(crate::specs::Specifications::IsOnlyList))]
fn whole_only_list(alloc: Global, items: &[Item]) -> Result<Vec<Only>, ReadError>
    ensures { Finds IsOnlyList (λ v. v.items) result items.now }
{
    if is_over(items) {
        return Ok(Vec::new(alloc));
    }
    let (found, rest) = only_list(alloc, items)?;
    if is_over(rest) {
        Ok(found)
    } else {
        Err(ReadError::NoForm)
    }
}

/// What stands behind `, ONLY :`.
#[tactic(auto, unfolding(crate::specs::Specifications::EatsOnlyHead))]
fn only_head(items: &[Item]) -> Result<&[Item], ReadError>
    ensures { Skips EatsOnlyHead result items.now }
{
    let rest = skip(Word::Comma, items)?;
    let rest = skip(Word::Name(Keyword::Only), rest)?;
    skip(Word::Colon, rest)
}

/// What a USE statement selects, behind the name of its module.
#[tactic(auto, unfolding(crate::specs::Specifications::IsSelection))]
fn selection(alloc: Global, items: &[Item]) -> Result<Selection, ReadError>
    ensures { Finds IsSelection selection_view result items.now }
{
    match only_head(items) {
        Ok(tail) => Ok(Selection::Only(whole_only_list(alloc, tail)?)),
        Err(ReadError::Memory) => Err(ReadError::Memory),
        Err(ReadError::NoForm) => Ok(Selection::All(rename_list(alloc, items)?)),
    }
}

/// The USE statement whose first token stands at the place, from the tokens behind that.
#[tactic(auto, unfolding(crate::specs::Specifications::IsUse))]
pub fn use_statement(alloc: Global, place: Place, items: &[Item]) -> Result<Use, ReadError>
    ensures { Finds (IsUse place) use_view result items.now }
{
    let (_, rest) = skip_colons(items);
    let (module, rest) = name(rest)?;
    let selection = selection(alloc, rest)?;
    Ok(Use {
        place,
        module,
        selection,
    })
}
