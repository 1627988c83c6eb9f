//! Whether variables can begin with their initial values.

ghost use Rattle.std.specs.Prelude.{◌≤◌, ◌≡◌, ◌↔◌, ◌^◌, true, MatchOption};
ghost use Rattle.f3_meaning_whole.specs.Value.{count};
ghost use Rattle.f3_meaning_whole.specs.Shape.{shape_in, spans_declared};
ghost use Rattle.f3_room_places.specs.Places.{HasTables, shapes};
ghost use Rattle.f3_room_levels.specs.Initial.{declared_each, AreEnough, IsOf, AreOf, CanBegin, TypeCanBegin, AllCanBegin};

use crate::sizes::before;
use f3_program::declarations::{Base, Component, Constant, Declared, Dimension};
use f3_room_places::types::Types;

/// Whether a constant is a scalar of a type.
fn is_of(types: Types<'_>, of: Base, constant: Constant) -> bool
    ensures { (result ≡ true) ↔ IsOf (shape_in (shapes types.entry) of) constant }
{
    match of {
        Base::Integer | Base::Long => matches!(constant, Constant::Number(_)),
        Base::Logical => matches!(constant, Constant::Truth(_)),
        Base::Derived(number) => {
            number >= types.derived.len() && matches!(constant, Constant::Number(_))
        }
    }
}

/// Whether constants are.
fn are_of(types: Types<'_>, of: Base, constants: &[Constant]) -> bool
    ensures { (result ≡ true) ↔ AreOf (shape_in (shapes types.entry) of) constants.now }
{
    for constant in constants {
        if !is_of(types, of, *constant) {
            return false;
        }
    }
    true
}

/// How many elements an array of bounds has (ISO/IEC 1539-1:2004, 6.2.2.2): none where they are 2 to the 64 or more.
fn elements(bounds: &[Dimension]) -> Option<u64>
    ensures { MatchOption result (2 ^ 64 ≤ count (spans_declared bounds.now)) (λ n. n ≡ count (spans_declared bounds.now)) }
{
    let Some((first, others)) = bounds.split_first() else {
        return Some(1);
    };
    match elements(others) {
        Some(n) => first.extent.checked_mul(n),
        None if first.extent == 0 => Some(0),
        None => None,
    }
}

/// Whether there is one value at most, or, of an array, as many as elements.
fn are_enough(declared: &Declared) -> bool
    ensures { (result ≡ true) ↔ AreEnough declared.now.kind.rank (count (spans_declared declared.now.dimensions.items)) declared.now.initial.items }
{
    let many = declared.initial.len();
    if many <= 1 {
        return true;
    }
    if declared.kind.rank == 0 {
        return false;
    }
    match elements(&declared.dimensions) {
        Some(count) => count == many as u64,
        None => false,
    }
}

/// Whether what is declared so can begin with its values.
fn one_can_begin(types: Types<'_>, declared: &Declared) -> bool
    ensures { (result ≡ true) ↔ CanBegin (shape_in (shapes types.entry) declared.now.kind.of) declared.now }
{
    are_enough(declared) && are_of(types, declared.kind.of, &declared.initial)
}

/// Whether the components of a type can, at any depth.
#[cycle(fitting)]
fn type_can_begin(types: Types<'_>, of: Base) -> bool
    requires { HasTables types }
    ensures { (result ≡ true) ↔ TypeCanBegin (shape_in (shapes types.entry) of) }
{
    let Base::Derived(number) = of else {
        return true;
    };
    if number >= types.derived.len() {
        return true;
    }
    components_can_begin(before(types, number), &types.derived[number].components)
}

/// Whether components can that stand one after another.
#[cycle(fitting)]
fn components_can_begin(types: Types<'_>, components: &[Component]) -> bool
    requires { HasTables types }
    ensures { (result ≡ true) ↔ AllCanBegin (shapes types.entry) (declared_each components.now) }
{
    for component in components {
        let declared = &component.declared;
        if !one_can_begin(types, declared) {
            return false;
        }
        if !type_can_begin(types, declared.kind.of) {
            return false;
        }
    }
    true
}

/// Whether variables can begin with their values, and all components of their types, at any depth: whether each value is a scalar of
/// its type, and there is one at most, or, of an array, as many as elements.
pub fn can_begin(types: Types<'_>, declared: &[Declared]) -> bool
    requires { HasTables types }
    ensures { (result ≡ true) ↔ AllCanBegin (shapes types.entry) declared.now }
{
    for variable in declared {
        if !one_can_begin(types, variable) {
            return false;
        }
        if !type_can_begin(types, variable.kind.of) {
            return false;
        }
    }
    true
}
