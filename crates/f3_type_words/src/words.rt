//! How many words objects have.

ghost use Rattle.std.specs.Prelude.{◌≡◌, ◌≤◌, ◌^◌, List, MatchOption};
ghost use Rattle.f3_meaning_whole.specs.Value.{count};
ghost use Rattle.f3_meaning_whole.specs.Shape.{Shape, shape_in, spans_declared};
ghost use Rattle.f3_rooms.specs.Forms.{laid_words, words_for, room};
ghost use Rattle.f3_type_words.specs.Tables.{AreTables};

use crate::table::TypeTable;
use f3_program::declarations::{Base, Declared, Dimension};

/// How many elements an array of bounds has (ISO/IEC 1539-1:2004, 6.2.2.2): none where they are 2 to the 64 or more.
pub fn elements(bounds: &[Dimension]) -> Option<u64>
    ensures { MatchOption result (2 ^ 64 ≤ count (spans_declared bounds.now)) (λ n. n ≡ count (spans_declared bounds.now)) }
{
    let Some((first, others)) = bounds.split_first() else {
        return Some(1);
    };
    match elements(others) {
        Some(n) => first.extent.checked_mul(n),
        None if first.extent == 0 => Some(0),
        None => None,
    }
}

/// How many words an object of a type has: one for a scalar (4.5.1).
pub fn base_words(tables: &[TypeTable], of: Base) -> usize
    ensures { (ts : List Shape) → AreTables ts tables.now → result ≡ words_for (shape_in ts of) }
{
    match of {
        Base::Integer | Base::Long | Base::Logical => 1,
        Base::Derived(number) => {
            if number >= tables.len() {
                return 1;
            }
            tables[number].words
        }
    }
}

/// How many words an object has, or an array of such, of so many words for each: none where they are 2 to the 64 or more.
fn laid(declared: &Declared, words: usize) -> Option<u64>
    ensures { MatchOption result (2 ^ 64 ≤ laid_words declared.now.kind.rank (spans_declared declared.now.dimensions.items) words)
        (λ n. n ≡ laid_words declared.now.kind.rank (spans_declared declared.now.dimensions.items) words) }
{
    if declared.kind.rank == 0 {
        return Some(words as u64);
    }
    if words == 0 {
        return Some(0);
    }
    match elements(&declared.dimensions) {
        Some(n) => n.checked_mul(words as u64),
        None => None,
    }
}

/// How many words a variable or a component has, of whose type and all before it these are the tables: none where they are 2 to the 64
/// or more.
pub fn words_of(tables: &[TypeTable], declared: &Declared) -> Option<u64>
    ensures { (ts : List Shape) → AreTables ts tables.now → MatchOption result (2 ^ 64 ≤ room ts declared.now) (λ n. n ≡ room ts declared.now) }
{
    if declared.kind.is_allocatable {
        return (declared.kind.rank as u64).checked_mul(2)?.checked_add(1);
    }
    laid(declared, base_words(tables, declared.kind.of))
}
