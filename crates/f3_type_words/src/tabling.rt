//! Tables of the types of a program.

ghost use Rattle.std.specs.Prelude.{◌≤◌, ◌<◌, ℕ, List, IfOk, IfSome, MatchOption, All, Any};
ghost use Rattle.f3_type_words.specs.Most.{most_words};
ghost use Rattle.f3_meaning_whole.specs.Shape.{Shape, Record, parts_in, shapes_of};
ghost use Rattle.f3_rooms.specs.Forms.{words_for, words_for_parts};
ghost use Rattle.f3_type_words.specs.Tables.{AreTables, IsTable};

use crate::table::TypeTable;
use crate::words::words_of;
use f3_program::declarations::{Component, Derived};
use std::alloc::{AllocError, Global};

/// The most words of an object that has a layout: 16,777,216 times 15, which are the words of an allocatable of rank 7.
pub const MOST_WORDS: usize = 251_658_240;

/// The table of a type with these components, by those of the types before it: none where its objects have more words than a layout
/// may have.
fn table_of(
    alloc: Global,
    tables: &[TypeTable],
    components: &[Component],
) -> Result<Option<TypeTable>, AllocError>
    ensures { IfOk result (λ r. (ts : List Shape) (t : ℕ) → AreTables ts tables.now → MatchOption r (most_words < words_for_parts (parts_in ts components.now))
        (λ x. IsTable (Record t (parts_in ts components.now)) x × (x.words ≤ most_words))) }
{
    let mut words: usize = 0;
    let mut offsets = Vec::new(alloc);
    for component in components {
        match words_of(tables, &component.declared) {
            Some(more) if more <= (MOST_WORDS - words) as u64 => {
                offsets.push(words)?;
                words += more as usize;
            }
            _ => return Ok(None),
        }
    }
    Ok(Some(TypeTable { words, offsets }))
}

/// The tables of the types of a program: none exactly where objects of some type have more words than a layout may have.
///
/// `AllocError` where the host has no memory for them.
pub fn tables(alloc: Global, types: &[Derived]) -> Result<Option<Vec<TypeTable>>, AllocError>
    ensures tables { IfOk result (λ r. MatchOption r (Any (λ s. most_words < words_for s) (shapes_of types.now)) (λ xs. AreTables (shapes_of types.now) xs.items)) }
    ensures small { IfOk result (λ r. IfSome r (λ xs. All (λ s. words_for s ≤ most_words) (shapes_of types.now))) }
{
    let mut tables = Vec::new(alloc);
    for one in types {
        match table_of(alloc, &tables, &one.components)? {
            Some(table) => tables.push(table)?,
            None => return Ok(None),
        }
    }
    Ok(Some(tables))
}
