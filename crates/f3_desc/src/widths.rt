//! How many words pieces have, and which of them tell of allocations.

ghost use Rattle.std.specs.Prelude.{◌≡◌, ◌<◌, ◌≤◌, IsTrue, map, List, length, nat_lt};
ghost use Rattle.std.specs.List.{list_all};
ghost use Rattle.f3_desc.specs.Shape.{Shape, is_piece, shape_of, shape_at, row, width, has_holder, most_words};

use crate::piece::Piece;

/// The words of parts one after another.
fn row_width(parts: &[usize], widths: &[usize]) -> usize
    requires { (before : List Shape) × (widths.now ≡ map width before)
        × IsTrue (list_all (λ k. nat_lt k (length before)) parts.now)
        × (width (row (map (shape_at before) parts.now)) ≤ most_words) }
    ensures { (before : List Shape) → widths.now ≡ map width before → result ≡ width (row (map (shape_at before) parts.now)) }
{
    let mut total = 0;
    for part in parts {
        total += widths[*part];
    }
    total
}

/// The words of a piece, by those of the pieces before it.
pub(crate) fn width_of(piece: &Piece, widths: &[usize]) -> usize
    requires { (before : List Shape) × (widths.now ≡ map width before) × IsTrue (is_piece before piece.now) }
    ensures { (before : List Shape) → widths.now ≡ map width before → result ≡ width (shape_of before piece.now) }
{
    match piece {
        Piece::Word => 1,
        Piece::Allocatable { rank, of: _ } => 1 + 2 * *rank,
        Piece::Record(parts) => row_width(parts, widths),
        Piece::Array { count, of } => *count * widths[*of],
    }
}

/// Whether some part tells of an allocation.
fn row_holder(parts: &[usize], holders: &[bool]) -> bool
    requires { (before : List Shape) × (holders.now ≡ map has_holder before) × IsTrue (list_all (λ k. nat_lt k (length before)) parts.now) }
    ensures { (before : List Shape) → holders.now ≡ map has_holder before → result ≡ has_holder (row (map (shape_at before) parts.now)) }
{
    for part in parts {
        if holders[*part] {
            return true;
        }
    }
    false
}

/// Whether a piece tells of an allocation, by whether the pieces before it do.
pub(crate) fn holder_of(piece: &Piece, holders: &[bool]) -> bool
    requires { (before : List Shape) × (holders.now ≡ map has_holder before) × IsTrue (is_piece before piece.now) }
    ensures { (before : List Shape) → holders.now ≡ map has_holder before → result ≡ has_holder (shape_of before piece.now) }
{
    match piece {
        Piece::Word => false,
        Piece::Allocatable { rank: _, of: _ } => true,
        Piece::Record(parts) => row_holder(parts, holders),
        Piece::Array { count, of } => *count > 0 && holders[*of],
    }
}
