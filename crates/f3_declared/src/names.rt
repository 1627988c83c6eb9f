//! What a declaration makes of a name.

ghost use Rattle.std.specs.Prelude.{◌≡◌, None, Some, option_map, map, slice_get};
ghost use Rattle.f3_tree.specs.Declarations.{shape_view, declaration_view, entity_view};
ghost use Rattle.f3_type_rules.specs.Names.{shape_of, intent_of, dimensions, type_if, type_named, type_of, object_of};
ghost use Rattle.f3_declared.specs.Declarations.{IsRead, tree_of};
ghost use Rattle.f3_declared.specs.Scenery.{names_in};
ghost use Rattle.f3_kinds.specs.Things.{map_or};

use crate::attributes::Reading;
use crate::scenery::Scenery;
use f3_access::lookup;
use f3_kinds::types::{DataType, Object};
use f3_lookups::lookup::Lookup;
use f3_scopes::outline::EntityKind;
use f3_tree::declaration::{Entity, Shape, TypeSpecifier};
use f3_typed_parts::known::Known;

/// The shape of a declared name: its own, or that of DIMENSION (5.1).
pub fn shape_of<'a>(reading: &Reading<'a>, entity: &'a Entity) -> Option<&'a Shape>
    requires { IsRead reading.now }
    ensures { option_map (λ s. shape_view s.now) result ≡ shape_of (tree_of reading.now, entity_view entity.now) }
{
    match &entity.shape {
        Some(shape) => Some(shape),
        None => reading.dimension,
    }
}

/// How many dimensions a shape has.
pub fn dimensions(shape: &Shape) -> usize
    ensures { result ≡ dimensions (shape_view shape.now) }
{
    match shape {
        Shape::Explicit(bounds) => bounds.len(),
        Shape::Deferred(bounds) => bounds.len(),
    }
}

fn type_if(number: usize, kind: Option<EntityKind>) -> Option<DataType>
    ensures { result ≡ type_if number kind }
{
    match kind {
        Some(EntityKind::DerivedType) => Some(DataType::Derived(number)),
        Some(_) => None,
        None => None,
    }
}

/// The type that a specifier names in a scope; none where TYPE(n) names no type (5.1.1).
pub fn type_of(
    known: &Known<'_>,
    scenery: Scenery<'_>,
    scope: usize,
    specifier: TypeSpecifier,
) -> Option<DataType>
    ensures { result ≡ type_of (names_in known.now scenery.entry) scope specifier }
{
    match specifier {
        TypeSpecifier::Integer(kind) => Some(DataType::Integer(kind)),
        TypeSpecifier::Logical => Some(DataType::Logical),
        TypeSpecifier::Derived(name) => match lookup(known.tables, scope, name.symbol) {
            Lookup::One(number) => type_if(number, scenery.kinds.get(number).copied()),
            Lookup::Nothing => None,
            Lookup::Several => None,
        },
    }
}

fn rank_of(shape: Option<&Shape>) -> usize
    ensures { result ≡ map_or 0 dimensions (option_map (λ s. shape_view s.now) shape.entry) }
{
    match shape {
        Some(shape) => dimensions(shape),
        None => 0,
    }
}

/// What a name is declared as (5.1).
#[tactic(auto, using(crate::proofs::Sorts::allocatable_once))]
pub fn object_of(
    known: &Known<'_>,
    scenery: Scenery<'_>,
    scope: usize,
    reading: &Reading<'_>,
    entity: &Entity,
) -> Object
    requires { IsRead reading.now }
    ensures { result ≡ object_of (names_in known.now scenery.entry) scope (tree_of reading.now, entity_view entity.now) }
{
    Object {
        data_type: type_of(known, scenery, scope, reading.declaration.specifier),
        rank: rank_of(shape_of(reading, entity)),
        is_allocatable: reading.kinds.allocatable.once,
    }
}
