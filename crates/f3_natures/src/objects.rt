//! What declarations make of their names (5.1).

ghost use Rattle.std.specs.Prelude.{◌≡◌, None, Some, map, option_map};
ghost use Rattle.std.specs.List.{flat_map, list_any};
ghost use Rattle.f3_tree.specs.Declarations.{shape_view, placed_view, entity_view, declaration_view};
ghost use Rattle.f3_scopes.specs.Scopes.{kind_of, intent_of};
ghost use Rattle.f3_type_rules.specs.Names.{type_if, type_named, type_of, dimension_in, is_allocatable, last_of, undeclared};
ghost use Rattle.f3_type_rules.specs.Natures.{typed_object};
ghost use Rattle.f3_natures.specs.Known.{names_view};
ghost use Rattle.f3_natures.specs.Objects.{extent, common_of, extent_by, described_by};

use crate::names::Names;
use f3_access::lookup;
use f3_kinds::types::{DataType, Object};
use f3_lookups::lookup::Lookup;
use f3_scopes::outline::EntityKind;
use f3_tree::declaration::{
    Attribute, AttributeKind, Declaration, Entity, Intent, Shape, TypeSpecifier,
};

/// The number of dimensions of a shape, and whether it gives their bounds.
#[derive(Clone, Copy)]
pub struct Extent {
    pub rank: usize,
    pub is_explicit: bool,
}

/// What a declaration says of each of its names.
#[derive(Clone, Copy)]
pub struct Common {
    pub kind: EntityKind,
    pub data_type: Option<DataType>,
    /// That of DIMENSION.
    pub dimension: Option<Extent>,
    pub is_allocatable: bool,
    pub intent: Option<Intent>,
}

/// What a declared name is.
#[derive(Clone, Copy)]
pub struct Described {
    pub object: Object,
    pub intent: Option<Intent>,
    /// Whether its shape gives its bounds.
    pub is_explicit: bool,
}

/// The type that an entity is, if it is one.
fn type_if(entity: usize, kind: EntityKind) -> Option<DataType>
    ensures { result ≡ type_if entity (Some kind) }
{
    match kind {
        EntityKind::DerivedType => Some(DataType::Derived(entity)),
        EntityKind::Constant => None,
        EntityKind::Variable => None,
        EntityKind::Subroutine => None,
        EntityKind::Function => None,
    }
}

/// The type that a name means, if it means one.
fn type_named(names: &Names<'_>, found: Lookup) -> Option<DataType>
    ensures { result ≡ type_named (names_view names.now) found }
{
    match found {
        Lookup::One(entity) => match names.kinds.get(entity) {
            Some(kind) => type_if(entity, *kind),
            None => None,
        },
        Lookup::Nothing => None,
        Lookup::Several => None,
    }
}

/// The type that a specifier means in a scope; none where TYPE(n) names no type.
pub fn type_of(names: &Names<'_>, scope: usize, specifier: TypeSpecifier) -> Option<DataType>
    ensures { result ≡ type_of (names_view names.now) scope specifier }
{
    match specifier {
        TypeSpecifier::Integer(kind) => Some(DataType::Integer(kind)),
        TypeSpecifier::Logical => Some(DataType::Logical),
        TypeSpecifier::Derived(name) => {
            type_named(names, lookup(names.tables, scope, name.symbol))
        }
    }
}

/// A scalar of the type of a specifier, not allocatable.
pub fn typed_object(names: &Names<'_>, scope: usize, specifier: TypeSpecifier) -> Object
    ensures { result ≡ typed_object (names_view names.now) scope specifier }
{
    Object {
        data_type: type_of(names, scope, specifier),
        rank: 0,
        is_allocatable: false,
    }
}

/// What stands for a name that nothing declares.
pub fn undeclared() -> Object
    ensures { result ≡ undeclared }
{
    Object {
        data_type: None,
        rank: 0,
        is_allocatable: false,
    }
}

fn extent_of(shape: &Shape) -> Extent
    ensures { result ≡ extent (shape_view shape.now) }
{
    match shape {
        Shape::Explicit(bounds) => Extent {
            rank: bounds.len(),
            is_explicit: true,
        },
        Shape::Deferred(bounds) => Extent {
            rank: bounds.len(),
            is_explicit: false,
        },
    }
}

/// The shape of the last DIMENSION.

fn dimension(list: &[Attribute]) -> Option<Extent>
    ensures { result ≡ option_map extent (last_of None (flat_map dimension_in (map (λ p. p.attribute) (map placed_view list.now)))) }
{
    let mut last = None;
    for attribute in list {
        if let AttributeKind::Dimension(shape) = &attribute.kind {
            last = Some(extent_of(shape));
        }
    }
    last
}

/// The last INTENT.
fn intent(list: &[Attribute]) -> Option<Intent>
    ensures { result ≡ last_of None (flat_map intent_of (map (λ p. p.attribute) (map placed_view list.now))) }
{
    let mut last = None;
    for attribute in list {
        if let AttributeKind::Intent(intent) = &attribute.kind {
            last = Some(*intent);
        }
    }
    last
}

fn has_allocatable(list: &[Attribute]) -> bool
    ensures { result ≡ list_any is_allocatable (map (λ p. p.attribute) (map placed_view list.now)) }
{
    for attribute in list {
        if let AttributeKind::Allocatable = &attribute.kind {
            return true;
        }
    }
    false
}

fn kind_of(list: &[Attribute]) -> EntityKind
    ensures { result ≡ kind_of (map placed_view list.now) }
{
    for attribute in list {
        if let AttributeKind::Parameter = &attribute.kind {
            return EntityKind::Constant;
        }
    }
    EntityKind::Variable
}

/// What a declaration in a scope says of each of its names.
pub fn common_of(names: &Names<'_>, scope: usize, declaration: &Declaration) -> Common
    ensures { result ≡ common_of (names_view names.now) scope (declaration_view declaration.now) }
{
    Common {
        kind: kind_of(&declaration.attributes),
        data_type: type_of(names, scope, declaration.specifier),
        dimension: dimension(&declaration.attributes),
        is_allocatable: has_allocatable(&declaration.attributes),
        intent: intent(&declaration.attributes),
    }
}

/// Its own shape, or that of DIMENSION.
fn extent_by(dimension: Option<Extent>, entity: &Entity) -> Option<Extent>
    ensures { result ≡ extent_by dimension (entity_view entity.now).shape }
{
    match &entity.shape {
        Some(shape) => Some(extent_of(shape)),
        None => dimension,
    }
}

/// What a declared name is, by what its declaration says.
pub fn describe(common: Common, entity: &Entity) -> Described
    ensures { result ≡ described_by common (entity_view entity.now) }
{
    let (rank, is_explicit) = match extent_by(common.dimension, entity) {
        Some(extent) => (extent.rank, extent.is_explicit),
        None => (0, false),
    };
    Described {
        object: Object {
            data_type: common.data_type,
            rank,
            is_allocatable: common.is_allocatable,
        },
        intent: common.intent,
        is_explicit,
    }
}
