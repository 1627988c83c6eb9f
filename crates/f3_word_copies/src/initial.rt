//! The words with which objects of types begin (ISO/IEC 1539-1:2004, 4.5.3.4, 16.5.6).

ghost use Rattle.std.specs.Prelude.{◌≡◌, ◌<◌, ◌^◌, pos, length, take, get_or};
ghost use Rattle.f3_meaning_whole.specs.Shape.{shape_in};
ghost use Rattle.f3_rooms.specs.Forms.{words_for, room, total};
ghost use Rattle.f3_room_places.specs.Places.{HasTables, shapes};
ghost use Rattle.f3_room_levels.specs.Initial.{word_of, declared_each, object_words, variable_words, initial_words, CanBegin, TypeCanBegin, AllCanBegin};

use f3_program::declarations::{Base, Component, Constant, Declared};
use f3_room_levels::room_of;
use f3_room_places::types::{Types, words};

/// The word of a constant: 1 is `.TRUE.`, 0 `.FALSE.` (own rule).
pub(crate) fn word_of(constant: Constant) -> i64
    ensures { result ≡ word_of constant }
{
    match constant {
        Constant::Number(number) => number,
        Constant::Truth(truth) => truth as i64,
    }
}

/// The types before one.
fn before(types: Types<'_>, number: usize) -> Types<'_>
    requires tables { HasTables types }
    requires one { number < length types.derived.now }
    ensures tables { HasTables result }
    ensures derived { result.derived.now ≡ take number types.entry.derived.now }
{
    Types {
        derived: &types.derived[..number],
        tables: &types.tables[..number],
    }
}

/// The word of a number among those with which an object of a type begins.
#[cycle(initial)]
pub(crate) fn object_word(types: Types<'_>, of: Base, number: usize) -> i64
    requires tables { HasTables types }
    requires fit { TypeCanBegin (shape_in (shapes types) of) }
    requires within { number < words_for (shape_in (shapes types) of) }
    ensures { result ≡ get_or (object_words (shape_in (shapes types.entry) of)) number (pos 0) }
{
    prove!(words(types, of) <= usize::MAX);
    let Base::Derived(place) = of else {
        return 0;
    };
    if place >= types.derived.len() {
        return 0;
    }
    component_word(
        before(types, place),
        &types.derived[place].components,
        number,
    )
}

/// The same among those of components that stand one after another.
#[cycle(initial)]
fn component_word(types: Types<'_>, components: &[Component], number: usize) -> i64
    requires tables { HasTables types }
    requires fit { AllCanBegin (shapes types) (declared_each components.now) }
    requires small { total (shapes types) (declared_each components.now) < 2 ^ 64 }
    requires within { number < total (shapes types) (declared_each components.now) }
    ensures { result ≡ get_or (initial_words (shapes types.entry) (declared_each components.now)) number (pos 0) }
{
    let mut left = number;
    for component in components {
        let declared = &component.declared;
        let room = room_of(types, declared);
        if left < room {
            return declared_word(types, declared, left);
        }
        left -= room;
    }
    0
}

/// The same among those of a component. An allocatable holds nothing.
#[cycle(initial)]
fn declared_word(types: Types<'_>, declared: &Declared, number: usize) -> i64
    requires tables { HasTables types }
    requires fit { CanBegin (shape_in (shapes types) declared.now.kind.of) declared.now }
    requires type_fit { TypeCanBegin (shape_in (shapes types) declared.now.kind.of) }
    requires within { number < room (shapes types) declared.now }
    ensures { result ≡ get_or (variable_words (shapes types.entry) declared.now) number (pos 0) }
{
    if declared.kind.is_allocatable {
        return 0;
    }
    match declared.initial.as_slice() {
        [] => {
            let size = words(types, declared.kind.of);
            if size == 0 {
                return 0;
            }
            object_word(types, declared.kind.of, number % size)
        }
        [one] => word_of(*one),
        constants => word_of(constants[number]),
    }
}
