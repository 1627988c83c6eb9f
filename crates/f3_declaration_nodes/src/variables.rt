//! Variables that live for the whole run, dummies, and results (5.1.2.12, 12.3.1.1, 12.5.2).

ghost use Rattle.std.specs.Prelude.{◌≡◌, ℕ, false, Some, [], if◌then◌else◌, map, option_map, slice_get, IfOk};
ghost use Rattle.f3_tree.specs.Expressions.{expression_view};
ghost use Rattle.f3_tree.specs.Declarations.{entity_view, shape_view};
ghost use Rattle.f3_tree.specs.declared.expression.Name.{Name};
ghost use Rattle.f3_kinds.specs.Things.{map_or};
ghost use Rattle.f3_typed_parts.specs.Known.{context_of};
ghost use Rattle.f3_type_rules.specs.Members.{Member};
ghost use Rattle.f3_type_rules.specs.Natures as natures;
ghost use Rattle.f3_declared.specs.Declarations.{IsRead, tree_of};
ghost use Rattle.f3_elaboration.specs.Declarations as elaborated;
ghost use Rattle.f3_elaboration.specs.Units as units;
ghost use Rattle.f3_elaboration.specs.DeclaredViews.{declared_view, dummy_view, static_view};
ghost use Rattle.f3_elaboration.specs.Numbers.{Inner};
ghost use Rattle.f3_declaration_nodes.specs.Stands.{Stands};
ghost use Rattle.f3_declaration_nodes.specs.Variables.{dummy_by, plain_by, static_by, variable_at};

use crate::declared::make_declared;
use crate::shapes::lower_bound;
use crate::whole::{Whole, place};
use f3_declared::attributes::Reading;
use f3_declared::names::{object_of, shape_of, type_of};
use f3_kinds::types::Object;
use f3_program::declarations::Declared;
use f3_program::program::{Dummy, Intent, Static};
use f3_tree::declaration::{Entity, Intent as Given, Shape, TypeSpecifier};
use f3_tree::expression::Expression;
use f3_typed_parts::known::{Known, Position};
use std::alloc::{AllocError, Global};

fn is_protected(whole: Whole<'_>, entity: usize) -> bool
    ensures { result ≡ map_or false (λ h. h.is_protected) (slice_get whole.entry.scenery.holders.now entity) }
{
    match whole.scenery.holders.get(entity) {
        Some(holder) => holder.is_protected,
        None => false,
    }
}

/// What the tables say of a variable that lives for the whole run (5.1, 5.1.2.12).
///
/// # Errors
///
/// Where memory runs out.
pub fn make_static(
    alloc: Global,
    whole: Whole<'_>,
    number: usize,
    unit: usize,
    scope: usize,
    reading: &Reading<'_>,
    entity: &Entity,
) -> Result<Static, AllocError>
    requires { IsRead reading.now }
    ensures { IfOk result (λ s. static_view s ≡ static_by whole.entry (variable_at number unit scope (tree_of reading.now, entity_view entity.now))) }
{
    Ok(Static {
        declared: make_declared(alloc, whole, unit, scope, reading, entity)?,
        home: unit,
        is_protected: is_protected(whole, number),
    })
}

/// A variable that lives for the whole run, by its entity and what it is declared as (5.1, 5.1.2.12).
///
/// # Errors
///
/// Where memory runs out.
pub fn static_variable(
    alloc: Global,
    whole: Whole<'_>,
    number: usize,
    unit: usize,
    scope: usize,
    reading: &Reading<'_>,
    entity: &Entity,
) -> Result<Static, AllocError>
    requires { IsRead reading.now }
    ensures { IfOk result (λ s. (w : elaborated.Whole) (inner : Inner) → Stands whole.entry w inner → static_view s ≡ elaborated.static w (variable_at number unit scope (tree_of reading.now, entity_view entity.now))) }
{
    let found = make_static(alloc, whole, number, unit, scope, reading, entity)?;
    Ok(found)
}

fn intent_of(intent: Option<Given>) -> Intent
    ensures { result ≡ units.intent_of intent }
{
    match intent {
        Some(Given::Out) => Intent::Out,
        Some(Given::InOut) => Intent::InOut,
        Some(Given::In) => Intent::In,
        None => Intent::In,
    }
}

fn deferred_bounds(
    alloc: Global,
    known: &Known<'_>,
    at: Position,
    list: &[Option<Expression>],
) -> Result<Vec<i64>, AllocError>
    ensures { IfOk result (λ v. v.items ≡ map (λ e. elaborated.lower_bound (context_of known.now at) (option_map expression_view e)) list.now) }
{
    let mut found = Vec::new(alloc);
    for e in list {
        found.push(lower_bound(known, at, e))?;
    }
    Ok(found)
}

fn shape_bounds(
    alloc: Global,
    known: &Known<'_>,
    at: Position,
    shape: &Shape,
) -> Result<Vec<i64>, AllocError>
    ensures { IfOk result (λ v. v.items ≡ units.lower_bounds (context_of known.now at) (Some (shape_view shape.now))) }
{
    match shape {
        Shape::Explicit(_) => Ok(Vec::new(alloc)),
        Shape::Deferred(list) => {
            let found = deferred_bounds(alloc, known, at, list)?;
            Ok(found)
        }
    }
}

/// The lower bounds of an array of assumed shape (5.1.2.5.2).
fn lower_bounds(
    alloc: Global,
    known: &Known<'_>,
    at: Position,
    shape: Option<&Shape>,
) -> Result<Vec<i64>, AllocError>
    ensures { IfOk result (λ v. v.items ≡ units.lower_bounds (context_of known.now at) (option_map (λ s. shape_view s.now) shape.entry)) }
{
    match shape {
        Some(shape) => shape_bounds(alloc, known, at, shape),
        None => Ok(Vec::new(alloc)),
    }
}

fn make_lowers(
    alloc: Global,
    known: &Known<'_>,
    at: Position,
    is_allocatable: bool,
    shape: Option<&Shape>,
) -> Result<Vec<i64>, AllocError>
    ensures { IfOk result (λ v. v.items ≡ (if is_allocatable then [] else units.lower_bounds (context_of known.now at) (option_map (λ s. shape_view s.now) shape.entry))) }
{
    if is_allocatable {
        return Ok(Vec::new(alloc));
    }
    lower_bounds(alloc, known, at, shape)
}

/// What the tables say of a dummy by its declaration in a procedure (12.3.1.1).
///
/// # Errors
///
/// Where memory runs out.
pub fn make_dummy(
    alloc: Global,
    whole: Whole<'_>,
    unit: usize,
    scope: usize,
    reading: &Reading<'_>,
    entity: &Entity,
) -> Result<Dummy, AllocError>
    requires { IsRead reading.now }
    ensures { IfOk result (λ d. dummy_view d ≡ dummy_by whole.entry unit scope (tree_of reading.now, entity_view entity.now)) }
{
    let at = place(unit, scope);
    let object = object_of(whole.known, whole.scenery, scope, reading, entity);
    let shape = shape_of(reading, entity);
    let lowers = make_lowers(alloc, whole.known, at, object.is_allocatable, shape)?;
    Ok(Dummy {
        kind: whole.numbers.kind(object),
        intent: intent_of(reading.intent),
        lowers,
    })
}

/// A dummy by its declaration in a procedure (12.3.1.1).
///
/// # Errors
///
/// Where memory runs out.
pub fn dummy(
    alloc: Global,
    whole: Whole<'_>,
    unit: usize,
    scope: usize,
    reading: &Reading<'_>,
    entity: &Entity,
) -> Result<Dummy, AllocError>
    requires { IsRead reading.now }
    ensures { IfOk result (λ d. (w : elaborated.Whole) (inner : Inner) (m : Member) (n : Name) → Stands whole.entry w inner → m.scope ≡ scope → units.declaration_of m n ≡ Some (tree_of reading.now, entity_view entity.now) → dummy_view d ≡ units.dummy w unit m n) }
{
    let found = make_dummy(alloc, whole, unit, scope, reading, entity)?;
    Ok(found)
}

/// What the tables say of the result of a function whose header gives its type (12.5.2.1).
pub fn make_result(
    alloc: Global,
    whole: Whole<'_>,
    scope: usize,
    specifier: TypeSpecifier,
) -> Declared
    ensures { declared_view result ≡ plain_by whole.entry scope specifier }
{
    let object = Object {
        data_type: type_of(whole.known, whole.scenery, scope, specifier),
        rank: 0,
        is_allocatable: false,
    };
    Declared {
        kind: whole.numbers.kind(object),
        dimensions: Vec::new(alloc),
        initial: Vec::new(alloc),
    }
}

/// The result of a function whose header gives its type (12.5.2.1).
pub fn typed_result(
    alloc: Global,
    whole: Whole<'_>,
    scope: usize,
    specifier: TypeSpecifier,
) -> Declared
    ensures { (w : elaborated.Whole) (inner : Inner) → Stands whole.entry w inner → declared_view result ≡ units.plain w (natures.typed_object w.scene.names scope specifier) }
{
    make_result(alloc, whole, scope, specifier)
}
