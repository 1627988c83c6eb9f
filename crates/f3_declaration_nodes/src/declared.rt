//! Declared objects (5.1).

ghost use Rattle.std.specs.Prelude.{◌≡◌, ℕ, IfOk};
ghost use Rattle.f3_tree.specs.Declarations.{entity_view};
ghost use Rattle.f3_declared.specs.Declarations.{IsRead, tree_of};
ghost use Rattle.f3_elaboration.specs.Declarations as elaborated;
ghost use Rattle.f3_elaboration.specs.DeclaredViews.{declared_view};
ghost use Rattle.f3_elaboration.specs.Numbers.{Inner};
ghost use Rattle.f3_declaration_nodes.specs.Stands.{Stands};
ghost use Rattle.f3_declaration_nodes.specs.Tables.{declared_by};

use crate::initial::initial;
use crate::shapes::dimensions;
use crate::whole::{Whole, place};
use f3_declared::attributes::Reading;
use f3_declared::names::{object_of, shape_of};
use f3_program::declarations::Declared;
use f3_tree::declaration::Entity;
use std::alloc::{AllocError, Global};

/// What the tables say that a name is declared as in a scope of a unit (5.1).
///
/// # Errors
///
/// Where memory runs out.
pub fn make_declared(
    alloc: Global,
    whole: Whole<'_>,
    unit: usize,
    scope: usize,
    reading: &Reading<'_>,
    entity: &Entity,
) -> Result<Declared, AllocError>
    requires { IsRead reading.now }
    ensures { IfOk result (λ d. declared_view d ≡ declared_by whole.entry unit scope (tree_of reading.now, entity_view entity.now)) }
{
    let at = place(unit, scope);
    let object = object_of(whole.known, whole.scenery, scope, reading, entity);
    let shape = shape_of(reading, entity);
    let dimensions = dimensions(alloc, whole.known, at, shape)?;
    let initial = initial(alloc, whole.known, at, object.data_type, &entity.initial)?;
    Ok(Declared {
        kind: whole.numbers.kind(object),
        dimensions,
        initial,
    })
}

/// What a name is declared as in a scope of a unit (5.1): its kind, its dimensions, and its initial values.
///
/// # Errors
///
/// Where memory runs out.
pub fn declared(
    alloc: Global,
    whole: Whole<'_>,
    unit: usize,
    scope: usize,
    reading: &Reading<'_>,
    entity: &Entity,
) -> Result<Declared, AllocError>
    requires { IsRead reading.now }
    ensures { IfOk result (λ d. (w : elaborated.Whole) (inner : Inner) → Stands whole.entry w inner → declared_view d ≡ elaborated.declared w unit scope (tree_of reading.now, entity_view entity.now)) }
{
    let found = make_declared(alloc, whole, unit, scope, reading, entity)?;
    Ok(found)
}
