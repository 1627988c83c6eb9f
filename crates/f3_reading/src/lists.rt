//! Parts that repeat, and parts that may be left out.

ghost use Rattle.std.specs.Prelude.{◌≡◌, ◌<◌, ◌≤◌, List, length, IfOk};
ghost use Rattle.std.specs.Fn.{FnReturnsAt};
ghost use Rattle.f3_words.specs.declared.item.Word.TheVariants.{Comma};
ghost use Rattle.f3_words.specs.declared.item.Item.{Item};
ghost use Rattle.f3_reading.specs.Lists.{Shortens, AreRead, MayBeRead, OthersAreRead};

use crate::signs::behind;
use f3_words::error::ReadError;
use f3_words::item::{Item, Word};
use std::alloc::Global;

/// An element at the front, and those behind commas.
pub fn list<'a, T: Drop, F: Fn(&'a [Item]) -> Result<(T, &'a [Item]), ReadError>>(
    alloc: Global,
    items: &'a [Item],
    element: F,
) -> Result<(Vec<T>, &'a [Item]), ReadError>
    requires callable { F.IsAlwaysCallable element }
    requires shortens { Shortens (FnReturnsAt F.Fn element) }
    ensures read { AreRead (FnReturnsAt F.Fn element) result items.now }
    ensures shorter { IfOk result (λ x. length x.1.now < length items.now) }
{
    let mut found = Vec::new(alloc);
    let mut rest = items;
    'elements: loop {
        let (one, after) = element(rest)?;
        found.push(one)?;
        match behind(Word::Comma, after) {
            Some(tail) => rest = tail,
            None => {
                found.shrink_to_fit();
                return Ok((found, after));
            }
        }
    }
}

/// The part behind this word, where the word is the first; else none.
pub fn perhaps<'a, T: Drop, F: Fn(&'a [Item]) -> Result<(T, &'a [Item]), ReadError>>(
    word: Word,
    items: &'a [Item],
    part: F,
) -> Result<(Option<T>, &'a [Item]), ReadError>
    requires callable { F.IsAlwaysCallable part }
    requires shortens { Shortens (FnReturnsAt F.Fn part) }
    ensures read { MayBeRead word (FnReturnsAt F.Fn part) result items.now }
    ensures shorter { IfOk result (λ x. length x.1.now ≤ length items.now) }
{
    match behind(word, items) {
        None => Ok((None, items)),
        Some(tail) => {
            let (found, rest) = part(tail)?;
            Ok((Some(found), rest))
        }
    }
}

/// The elements behind a comma, with commas between them; none where no comma is the first.
pub fn others<'a, T: Drop, F: Fn(&'a [Item]) -> Result<(T, &'a [Item]), ReadError>>(
    alloc: Global,
    items: &'a [Item],
    element: F,
) -> Result<(Vec<T>, &'a [Item]), ReadError>
    requires callable { F.IsAlwaysCallable element }
    requires shortens { Shortens (FnReturnsAt F.Fn element) }
    ensures read { OthersAreRead (FnReturnsAt F.Fn element) result items.now }
    ensures shorter { IfOk result (λ x. length x.1.now ≤ length items.now) }
{
    match behind(Word::Comma, items) {
        None => Ok((Vec::new(alloc), items)),
        Some(tail) => {
            let (found, rest) = list(alloc, tail, element)?;
            Ok((found, rest))
        }
    }
}
