//! How many words variables have, by the tables of their types.

ghost use Rattle.std.specs.Prelude.{◌≡◌, ◌<◌, ◌^◌, length, take};
ghost use Rattle.f3_rooms.specs.Forms.{room};
ghost use Rattle.f3_room_places.specs.Places.{HasTables, shapes};

use f3_program::declarations::Declared;
use f3_room_places::types::Types;
use f3_type_words::words::words_of;

/// How many words a variable or a component has.
pub fn room_of(types: Types<'_>, declared: &Declared) -> usize
    requires tables { HasTables types }
    requires small { room (shapes types) declared.now < 2 ^ 64 }
    ensures { result ≡ room (shapes types.entry) declared.now }
{
    match words_of(types.tables, declared) {
        Some(words) => words as usize,
        None => 0,
    }
}

/// The types before one.
pub(crate) fn before(types: Types<'_>, number: usize) -> Types<'_>
    requires tables { HasTables types }
    requires one { number < length types.derived.now }
    ensures tables { HasTables result }
    ensures derived { result.derived.now ≡ take number types.entry.derived.now }
{
    Types {
        derived: &types.derived[..number],
        tables: &types.tables[..number],
    }
}
