//! Which types begin with words that are all 0.

ghost use Rattle.std.specs.Prelude.{◌≡◌, pos, true, replicate};
ghost use Rattle.f3_meaning_whole.specs.Shape.{shape_in, shapes_of};
ghost use Rattle.f3_rooms.specs.Forms.{words_for, room, total};
ghost use Rattle.f3_room_levels.specs.Initial.{declared_each, initial_words, object_words, variable_words};

use f3_program::declarations::{Base, Component, Declared, Derived};

/// Whether the words with which an object of a type begins are 0.
#[cycle(blank)]
pub(crate) fn is_blank(derived: &[Derived], of: Base) -> bool
    ensures { let s = shape_in (shapes_of derived.now) of in result ≡ true → object_words s ≡ replicate (words_for s) (pos 0) }
{
    let Base::Derived(number) = of else {
        return true;
    };
    number >= derived.len() || are_zero(&derived[..number], &derived[number].components)
}

/// Whether those of a variable or a component are: an allocatable holds nothing.
#[cycle(blank)]
fn is_zero(derived: &[Derived], declared: &Declared) -> bool
    ensures { result ≡ true → variable_words (shapes_of derived.now) declared.now ≡ replicate (room (shapes_of derived.now) declared.now) (pos 0) }
{
    declared.kind.is_allocatable
        || (declared.initial.is_empty() && is_blank(derived, declared.kind.of))
}

/// Whether those of components are.
#[cycle(blank)]
fn are_zero(derived: &[Derived], components: &[Component]) -> bool
    ensures { let ds = declared_each components.now in
        result ≡ true → initial_words (shapes_of derived.now) ds ≡ replicate (total (shapes_of derived.now) ds) (pos 0) }
{
    for component in components {
        if !is_zero(derived, &component.declared) {
            return false;
        }
    }
    true
}
