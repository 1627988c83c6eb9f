//! Types of which no component is initialized.

ghost use Rattle.std.specs.Prelude.{List, IfOk};
ghost use Rattle.std.specs.Bool.{MatchBool};
ghost use Rattle.f3_meaning_whole.specs.Shape.{Shape, shape_in, shapes_of, parts_in};
ghost use Rattle.f3_rooms.specs.Laws.{IsBare, AreBare};
ghost use Rattle.f3_program.specs.declared.declarations.Declared.{Declared};
ghost use Rattle.f3_room_frames.specs.Bare.{TellBare};
ghost use Rattle.f3_room_frames.specs.Initial.{HaveBareTypes};
ghost use Rattle.f3_room_frames.specs.Layouts.{IsLayout};

use crate::layout::Layout;
use f3_program::declarations::{Base, Component, Derived};
use std::alloc::{AllocError, Global};

/// Whether no component of a type is initialized, at any depth, by what is known of the derived types (ISO/IEC 1539-1:2004, 4.5.3.4).
pub fn is_bare(bare: &[bool], of: Base) -> bool
    ensures { (ts : List Shape) → TellBare ts bare.now → MatchBool result (IsBare (shape_in ts of)) (IsBare (shape_in ts of) → ⊥) }
{
    match of {
        Base::Integer | Base::Long | Base::Logical => true,
        Base::Derived(number) => {
            if number >= bare.len() {
                return true;
            }
            bare[number]
        }
    }
}

/// Whether none of these components is initialized, nor one of theirs.
fn are_bare(bare: &[bool], components: &[Component]) -> bool
    ensures { (ts : List Shape) → TellBare ts bare.now → MatchBool result (AreBare (parts_in ts components.now)) (AreBare (parts_in ts components.now) → ⊥) }
{
    for component in components {
        if !component.declared.initial.is_empty() {
            return false;
        }
        if !is_bare(bare, component.declared.kind.of) {
            return false;
        }
    }
    true
}

/// Of each type, whether none of its components is initialized, at any depth.
///
/// `AllocError` where the host has no memory for it.
pub fn bare_types(alloc: Global, types: &[Derived]) -> Result<Vec<bool>, AllocError>
    ensures { IfOk result (λ r. TellBare (shapes_of types.now) r.items) }
{
    let mut bare = Vec::new(alloc);
    for one in types {
        let is = are_bare(&bare, &one.components);
        bare.push(is)?;
    }
    Ok(bare)
}

/// Whether the types of all variables of a layout are such.
pub fn have_bare_types(bare: &[bool], layout: &Layout) -> bool
    ensures { (ts : List Shape) (ds : List Declared) → TellBare ts bare.now → IsLayout ts ds layout.now → MatchBool result (HaveBareTypes ts ds) (HaveBareTypes ts ds → ⊥) }
{
    for variable in &layout.variables {
        if !is_bare(bare, variable.of) {
            return false;
        }
    }
    true
}
