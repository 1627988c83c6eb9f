//! Scalar and allocatable parts of objects of derived types.

ghost use Rattle.std.specs.Prelude.{◌≡◌, IfSome, Some, map};
ghost use Rattle.f3_meaning_whole.specs.Shape.{shape_in, shapes_of};
ghost use Rattle.f3_meaning_whole.specs.Store as store;
ghost use Rattle.f3_type_words.specs.Tables.{AreTables};
ghost use Rattle.f3_room_frames.specs.States.{types_of};
ghost use Rattle.f3_room_frames.specs.Places.{part_in, holder_in};
ghost use Rattle.f3_room_frames.specs.Layouts.{IsHolding};

use crate::layout::Holding;
use crate::layouts::Layouts;
use f3_program::declarations::{Base, Derived};
use f3_type_words::table::TypeTable;
use f3_type_words::words::base_words;

/// Which of the words of an object of a type, among the types of a program up to it, a scalar part is, and its type.
fn part_of(
    tables: &[TypeTable],
    types: &[Derived],
    of: Base,
    way: &[usize],
) -> Option<(usize, Base)>
    requires { AreTables (shapes_of types.now) tables.now }
    ensures { IfSome result (λ r. part_in (shape_in (shapes_of types.now) of) of (map store.Component way.now) ≡ Some r) }
{
    let Base::Derived(number) = of else {
        return if way.is_empty() { Some((0, of)) } else { None };
    };
    let Some((first, rest)) = way.split_first() else {
        return None;
    };
    if number >= types.len() || *first >= types[number].components.len() {
        return None;
    }
    let declared = &types[number].components[*first].declared;
    if declared.kind.is_allocatable || declared.kind.rank > 0 {
        return None;
    }
    let before = tables[number].offsets[*first];
    let (place, scalar) = part_of(&tables[..number], &types[..number], declared.kind.of, rest)?;
    Some((before.checked_add(place)?, scalar))
}

/// An allocatable part of an object of a type, among the types of a program up to it.
fn holder_of(tables: &[TypeTable], types: &[Derived], of: Base, way: &[usize]) -> Option<Holding>
    requires { AreTables (shapes_of types.now) tables.now }
    ensures { IfSome result (λ r. IsHolding (holder_in (shape_in (shapes_of types.now) of) of (map store.Component way.now)) r) }
{
    let Base::Derived(number) = of else {
        return None;
    };
    let Some((first, rest)) = way.split_first() else {
        return None;
    };
    if number >= types.len() || *first >= types[number].components.len() {
        return None;
    }
    let declared = &types[number].components[*first].declared;
    let before = tables[number].offsets[*first];
    if declared.kind.is_allocatable {
        return if rest.is_empty() {
            Some(Holding {
                at: before,
                rank: declared.kind.rank,
                of: declared.kind.of,
                width: base_words(&tables[..number], declared.kind.of),
            })
        } else {
            None
        };
    }
    if declared.kind.rank > 0 {
        return None;
    }
    let inner = holder_of(&tables[..number], &types[..number], declared.kind.of, rest)?;
    Some(Holding {
        at: before.checked_add(inner.at)?,
        rank: inner.rank,
        of: inner.of,
        width: inner.width,
    })
}

impl Layouts<'_> {
    /// Which of the words of an object of a type the scalar part at the end of these components is, and its type (ISO/IEC 1539-1:2004,
    /// 6.1.2): none where there is no such part, or where one of the components is an array or an allocatable.
    pub fn part(&self, of: Base, way: &[usize]) -> Option<(usize, Base)>
        ensures { IfSome result (λ r. part_in (shape_in (types_of self.now.program.now) of) of (map store.Component way.now) ≡ Some r) }
    {
        part_of(&self.tables, &self.program.types, of, way)
    }

    /// The allocatable part of an object of a type at the end of these components: none where there is no such part, or where one of the
    /// components before the last is an array or an allocatable.
    pub fn holder(&self, of: Base, way: &[usize]) -> Option<Holding>
        ensures { IfSome result (λ r. IsHolding (holder_in (shape_in (types_of self.now.program.now) of) of (map store.Component way.now)) r) }
    {
        holder_of(&self.tables, &self.program.types, of, way)
    }
}
