//! Types of whose objects nothing is allocatable.

ghost use Rattle.std.specs.Prelude.{◌≡◌, List, IfOk};
ghost use Rattle.f3_meaning_whole.specs.Shape.{Shape, shape_in, shapes_of, parts_in};
ghost use Rattle.f3_rooms.specs.Flat as whole;
ghost use Rattle.f3_room_frames.specs.FlatTypes.{TellFlat};

use f3_program::declarations::{Base, Component, Derived};
use std::alloc::{AllocError, Global};

/// Whether no component of a type is allocatable, at any depth, by what is known of the derived types (ISO/IEC 1539-1:2004, 6.3.1).
pub fn is_flat(flat: &[bool], of: Base) -> bool
    ensures { (ts : List Shape) → TellFlat ts flat.now → result ≡ whole.is_flat (shape_in ts of) }
{
    match of {
        Base::Integer | Base::Long | Base::Logical => true,
        Base::Derived(number) => {
            if number >= flat.len() {
                return true;
            }
            flat[number]
        }
    }
}

/// Whether none of these components is allocatable, nor one of theirs.
fn are_flat(flat: &[bool], components: &[Component]) -> bool
    ensures { (ts : List Shape) → TellFlat ts flat.now → result ≡ whole.are_flat (parts_in ts components.now) }
{
    for component in components {
        if component.declared.kind.is_allocatable {
            return false;
        }
        if !is_flat(flat, component.declared.kind.of) {
            return false;
        }
    }
    true
}

/// Of each type, whether none of its components is allocatable, at any depth.
///
/// `AllocError` where the host has no memory for it.
pub fn flat_types(alloc: Global, types: &[Derived]) -> Result<Vec<bool>, AllocError>
    ensures { IfOk result (λ r. TellFlat (shapes_of types.now) r.items) }
{
    let mut flat = Vec::new(alloc);
    for one in types {
        let is = are_flat(&flat, &one.components);
        flat.push(is)?;
    }
    Ok(flat)
}
