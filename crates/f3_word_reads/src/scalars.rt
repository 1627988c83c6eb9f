//! Scalars as words.

ghost use Rattle.std.specs.Prelude.{◌≡◌, MatchOption, false, true};
ghost use Rattle.f3_meaning_whole.specs.Arithmetic.{constant_value};
ghost use Rattle.f3_meaning_whole.specs.Shape.{shape_in};
ghost use Rattle.f3_rooms.specs.Places.{is_scalar_shape};
ghost use Rattle.f3_word_reads.specs.Scalars.{scalar_of};
ghost use Rattle.f3_room_places.specs.Places.{HasTables, shapes};

use f3_program::declarations::{Base, Constant};
use f3_room_places::types::Types;

/// Whether objects of a type are scalars of an intrinsic type.
pub fn is_scalar(types: Types<'_>, of: Base) -> bool
    requires { HasTables types }
    ensures { result ≡ is_scalar_shape (shape_in (shapes types.entry) of) }
{
    match of {
        Base::Derived(number) => number >= types.tables.len(),
        _ => true,
    }
}

/// The scalar of a type that a word is: of LOGICAL, 0 is `.FALSE.`, any other word `.TRUE.` (own rule).
pub fn scalar_in(of: Base, word: i64) -> Constant
    ensures { constant_value result ≡ scalar_of of word }
{
    match of {
        Base::Logical => Constant::Truth(word != 0),
        _ => Constant::Number(word),
    }
}
