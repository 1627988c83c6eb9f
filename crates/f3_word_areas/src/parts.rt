//! Whole variables, and components.

ghost use Rattle.std.specs.Prelude.{◌≡◌, ◌≤◌, length, MatchOption, None, Some};
ghost use Rattle.f3_meaning_whole.specs.Act.{component_of};
ghost use Rattle.f3_meaning_whole.specs.Shape.{shape_in};
ghost use Rattle.f3_program.specs.declared.declarations.Component as m;
ghost use Rattle.f3_room_places.specs.Components.{offset_at};
ghost use Rattle.f3_room_places.specs.Places.{HasTables, shapes};
ghost use Rattle.f3_word_areas.specs.Parts.{IsLaid, IsPartOf};

use crate::bounds::{dims_of, from_one};
use arrayvec::ArrayVec;
use f3_desc::descriptor::Descriptor;
use f3_heap::BlockId;
use f3_program::declarations::{Base, Declared};
use f3_room_places::types::{Types, words};
use f3_word_cells::cell::Area;

/// A component of a type, and at which word of an object it begins (ISO/IEC 1539-1:2004, 4.5.1).
pub fn component_of<'a>(
    types: Types<'a>,
    of: Base,
    component: usize,
) -> Option<(&'a Declared, usize)>
    requires { HasTables types }
    ensures { let x = component_of types.entry.derived.now of component in
        MatchOption result (x ≡ None) (λ r. (c : m.Component) × (x ≡ Some c) × (r.0.now ≡ c.declared) × (r.1 ≡ offset_at (shape_in (shapes types.entry) of) component)) }
{
    let Base::Derived(number) = of else {
        return None;
    };
    if number >= types.derived.len() {
        return None;
    }
    let components = &types.derived[number].components;
    if component >= components.len() {
        return None;
    }
    Some((
        &components[component].declared,
        types.tables[number].offsets[component],
    ))
}

/// The words of what is declared so, from a word of a block on.
pub fn laid(types: Types<'_>, declared: &Declared, block: BlockId, at: usize) -> Area
    requires tables { HasTables types }
    requires few { length declared.now.dimensions.items ≤ 7 }
    ensures { IsLaid (shapes types.entry) declared.now block at result }
{
    let dims = if declared.kind.rank == 0 {
        ArrayVec::new()
    } else {
        dims_of(&declared.dimensions, words(types, declared.kind.of))
    };
    Area {
        elements: Descriptor {
            block,
            offset: at,
            dims,
        },
        of: declared.kind.of,
    }
}

/// A component that is declared so and begins so many words behind the first: of one object, or of each element of an array (6.1.2).
pub fn part(types: Types<'_>, area: &Area, declared: &Declared, offset: usize) -> Area
    requires tables { HasTables types }
    requires few { length declared.now.dimensions.items ≤ 7 }
    ensures { IsPartOf (shapes types.entry) declared.now offset area.now result }
{
    let at = area.elements.offset.wrapping_add(offset);
    if area.elements.dims.is_empty() {
        return laid(types, declared, area.elements.block, at);
    }
    Area {
        elements: Descriptor {
            block: area.elements.block,
            offset: at,
            dims: from_one(&area.elements.dims),
        },
        of: declared.kind.of,
    }
}
