//! Derived types with their tables.

ghost use Rattle.std.specs.Prelude.{◌≡◌, ◌<◌, length, take, MatchOption, Some, None};
ghost use Rattle.f3_program.specs.declared.declarations.Base.TheVariants as base;
ghost use Rattle.f3_meaning_whole.specs.Shape.{shape_in};
ghost use Rattle.f3_rooms.specs.Forms.{words_for};
ghost use Rattle.f3_room_places.specs.Places.{HasTables, shapes};
ghost use Rattle.f3_room_places.specs.Components.{declared_at, offset_at};

use f3_program::declarations::{Base, Declared, Derived};
use f3_type_words::table::TypeTable;

/// The types of a program, or those that stand before one of them, and the table of each.
#[derive(Clone, Copy)]
pub struct Types<'a> {
    pub derived: &'a [Derived],
    pub tables: &'a [TypeTable],
}

/// How many words an object of a type has.
pub fn words(types: Types<'_>, of: Base) -> usize
    requires { HasTables types }
    ensures { result ≡ words_for (shape_in (shapes types.entry) of) }
{
    let Base::Derived(number) = of else {
        return 1;
    };
    if number < types.tables.len() {
        types.tables[number].words
    } else {
        1
    }
}

/// A component of a type, and at which word of an object it begins (ISO/IEC 1539-1:2004, 4.5.1).
pub(crate) fn component_of<'a>(
    types: Types<'a>,
    number: usize,
    component: usize,
) -> Option<(&'a Declared, usize)>
    requires { HasTables types }
    ensures { let x = declared_at types.entry.derived.now number component in let s = shape_in (shapes types.entry) (base.Derived number) in
        MatchOption result (x ≡ None) (λ r. (x ≡ Some r.0.now) × (r.1 ≡ offset_at s component)) }
{
    if number >= types.derived.len() {
        return None;
    }
    let components = &types.derived[number].components;
    if component >= components.len() {
        return None;
    }
    Some((
        &components[component].declared,
        types.tables[number].offsets[component],
    ))
}

/// The types before one.
pub(crate) fn before(types: Types<'_>, number: usize) -> Types<'_>
    requires tables { HasTables types }
    requires one { number < length types.derived.now }
    ensures tables { HasTables result }
    ensures shapes { shapes result ≡ take number (shapes types.entry) }
{
    Types {
        derived: &types.derived[..number],
        tables: &types.tables[..number],
    }
}
