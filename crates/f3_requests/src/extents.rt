//! The elements and the words of new objects.

ghost use Rattle.std.specs.Prelude.{◌≡◌, ℕ, ◌*◌, ◌≤◌, ◌%◌, ◌^◌, List, [], ◌∷◌, nat_lt, true, false, MatchOption};
ghost use Rattle.f3_meaning_whole.specs.Value as m;
ghost use Rattle.f3_meaning_whole.specs.Value.{count};
ghost use Rattle.f3_meaning_whole.specs.Exec.{too_many, vacant};
ghost use Rattle.f3_code.specs.Account.{words};
ghost use Rattle.f3_arithmetic.specs.Turns.{turns_of};
ghost use Rattle.f3_data.specs.Values.{spans_of};
ghost use Rattle.f3_cells.specs.declared.cell.Cell.{Cell};
ghost use Rattle.f3_requests.specs.Inner.Counted.{extents, Sized};

use f3_cells::cell::Cell;
use f3_data::value::Span;

/// The most elements that an ALLOCATE makes (own rule for ISO/IEC 1539-1:2004, 6.3.1).
const MOST_ELEMENTS: u64 = 16_777_216;

/// At least so many subscripts follow the first of a dimension where they are more than a signed number of 64 bits tells.
const TOO_MANY: u64 = 0x7FFF_FFFF_FFFF_FFFF;

/// How many elements an array of bounds has (6.2.2.2), modulo 2 to the 64.
pub(crate) fn element_count(spans: &[Span]) -> u64
    ensures { result ≡ count (spans_of spans.now) % 2 ^ 64 }
{
    let mut n: u64 = 1;
    for span in spans {
        n = n.wrapping_mul(span.extent);
    }
    n
}

/// The words of a new object of a rank, with so many elements, each of so many words (6.3.1), modulo 2 to the 64.
pub(crate) fn vacant_words(rank: usize, n: u64, element: u64) -> u64
    ensures { (ss : List m.Span) (v : m.Value) → n ≡ count ss % 2 ^ 64 → element ≡ words v % 2 ^ 64 → result ≡ words (vacant rank ss v) % 2 ^ 64 }
{
    if rank == 0 {
        return element;
    }
    n.wrapping_mul(element)
}

/// Whether a dimension has no more subscripts than a signed number of 64 bits tells, given how many follow the first.
fn is_told(turns: Option<u64>) -> bool
    ensures { result ≡ nat_lt (turns_of turns) (2 ^ 63) }
{
    match turns {
        Some(others) => others < TOO_MANY,
        None => true,
    }
}

/// Whether a cell is a dimension of more subscripts than a signed number of 64 bits tells.
fn is_untold(cell: &Cell) -> bool
    ensures { result ≡ too_many (extents (cell.now ∷ [])) }
{
    match cell {
        Cell::Extent(_, turns) => !is_told(*turns),
        _ => false,
    }
}

/// Whether one of the dimensions among cells has more subscripts than a signed number of 64 bits tells.
fn too_many(cells: &[Cell]) -> bool
    ensures { result ≡ too_many (extents cells.now) }
{
    cells.iter().any(|cell| is_untold(cell))
}

/// So many elements for each subscript of a dimension, given how many follow the first: none where they are 2 to the 64 or more.
fn repeated(turns: Option<u64>, n: Option<u64>) -> Option<u64>
    ensures { (k : ℕ) → MatchOption n (2 ^ 64 ≤ k) (λ x. x ≡ k) → MatchOption result (2 ^ 64 ≤ turns_of turns * k) (λ x. x ≡ turns_of turns * k) }
{
    let Some(others) = turns else {
        return Some(0);
    };
    let Some(first) = n else {
        return None;
    };
    match others.checked_mul(first) {
        Some(product) => product.checked_add(first),
        None => None,
    }
}

/// How many elements an array of the dimensions among a cell and others has, given how many it has by the others: none where
/// they are 2 to the 64 or more.
fn extended(cell: &Cell, n: Option<u64>) -> Option<u64>
    ensures { (cs : List Cell) → MatchOption n (2 ^ 64 ≤ count (extents cs)) (λ x. x ≡ count (extents cs))
        → MatchOption result (2 ^ 64 ≤ count (extents (cell.now ∷ cs))) (λ x. x ≡ count (extents (cell.now ∷ cs))) }
{
    match cell {
        Cell::Extent(_, turns) => repeated(*turns, n),
        _ => n,
    }
}

/// How many elements an array of the dimensions among cells has (6.2.2.2): none where they are 2 to the 64 or more.
fn count(cells: &[Cell]) -> Option<u64>
    ensures { MatchOption result (2 ^ 64 ≤ count (extents cells.now)) (λ n. n ≡ count (extents cells.now)) }
{
    let mut n = Some(1);
    let mut before = cells.len();
    while before > 0 {
        before -= 1;
        n = extended(&cells[before], n);
    }
    n
}

/// How many elements a new array of the dimensions among cells has: none where it is too large (own rule for 6.3.1).
pub(crate) fn new_count(cells: &[Cell]) -> Option<u64>
    ensures { Sized (extents cells.now) result }
{
    if too_many(cells) {
        return None;
    }
    match count(cells) {
        Some(n) if n <= MOST_ELEMENTS => Some(n),
        _ => None,
    }
}
