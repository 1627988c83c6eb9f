//! Names, one or several.

ghost use Rattle.std.specs.Prelude.{◌≡◌, ◌<◌, ◌≤◌, length, IfOk, Option};
ghost use Rattle.f3_tree.specs.declared.expression.Name.{Name};
ghost use Rattle.f3_words.specs.Words.{is_name};
ghost use Rattle.f3_words.specs.Lists.{starts};
ghost use Rattle.f3_words.specs.Reads.{IsRead, Reads, Finds};
ghost use Rattle.f3_reading.specs.Names.{AreNames, EatsNames, EatsColons, EatsEnclosedName, IsName, IsLabel, IsNameList};

use crate::lists::list;
use crate::signs::{behind, is_over, name, skip};
use f3_tree::expression::Name;
use f3_words::error::ReadError;
use f3_words::item::{Item, Word};
use f3_words::reading::front;
use std::alloc::Global;

/// The names at the front, with commas between them.
pub fn names(alloc: Global, items: &[Item]) -> Result<(Vec<Name>, &[Item]), ReadError>
    ensures read { Reads AreNames (λ v. v.items) result items.now }
    ensures shorter { IfOk result (λ x. length x.1.now ≤ length items.now) }
{
    list(alloc, items, name)
}

/// Whether a name stands at the front.
fn starts_name(items: &[Item]) -> bool
    ensures { result ≡ starts is_name items.now }
{
    match front(items) {
        Some((item, _)) => item.word.is_name(),
        None => false,
    }
}

/// The names at the front, with commas between them, or none.
#[tactic(auto, unfolding(crate::specs::Names::EatsNames))]
pub fn names_perhaps(alloc: Global, items: &[Item]) -> Result<(Vec<Name>, &[Item]), ReadError>
    ensures read { Reads EatsNames (λ v. v.items) result items.now }
    ensures shorter { IfOk result (λ x. length x.1.now ≤ length items.now) }
{
    if starts_name(items) {
        let (found, rest) = names(alloc, items)?;
        Ok((found, rest))
    } else {
        Ok((Vec::new(alloc), items))
    }
}

/// Whether `::` stands at the front, and what stands behind it.
pub fn skip_colons(items: &[Item]) -> (bool, &[Item])
    ensures read { IsRead EatsColons items.now result.0 result.1.now }
    ensures shorter { length result.1.now ≤ length items.now }
{
    match behind(Word::Colons, items) {
        Some(tail) => (true, tail),
        None => (false, items),
    }
}

/// The one name that all of the tokens are.
#[tactic(auto, unfolding(crate::specs::Names::IsName))]
pub fn only_name(items: &[Item]) -> Result<Name, ReadError>
    ensures { Finds IsName (λ (n : Name). n) result items.now }
{
    let (name, rest) = name(items)?;
    if is_over(rest) {
        Ok(name)
    } else {
        Err(ReadError::NoForm)
    }
}

/// The name that all of the tokens are, or nothing.
#[tactic(auto, unfolding(crate::specs::Names::IsLabel))]
pub fn label(items: &[Item]) -> Result<Option<Name>, ReadError>
    ensures { Finds IsLabel (λ (n : Option Name). n) result items.now }
{
    if is_over(items) {
        return Ok(None);
    }
    Ok(Some(only_name(items)?))
}

/// The names behind a keyword, with `::` before them or without.
#[tactic(auto, unfolding(crate::specs::Names::IsNameList))]
pub fn name_list(alloc: Global, items: &[Item]) -> Result<Vec<Name>, ReadError>
    ensures { Finds IsNameList (λ v. v.items) result items.now }
{
    let (_, rest) = skip_colons(items);
    let (found, rest) = names(alloc, rest)?;
    if is_over(rest) {
        Ok(found)
    } else {
        Err(ReadError::NoForm)
    }
}

/// The name in parentheses at the front.
#[tactic(auto, unfolding(crate::specs::Names::EatsEnclosedName))]
pub fn enclosed_name(items: &[Item]) -> Result<(Name, &[Item]), ReadError>
    ensures read { Reads EatsEnclosedName (λ (n : Name). n) result items.now }
    ensures shorter { IfOk result (λ x. length x.1.now < length items.now) }
{
    let rest = skip(Word::Open, items)?;
    let (name, rest) = name(rest)?;
    let rest = skip(Word::Close, rest)?;
    Ok((name, rest))
}
