//! T1: attributes that do not stand together (5.1).

ghost use Rattle.std.specs.Prelude.{◌≡◌, ◌&&◌, ◌||◌, not, is_some, option_map};
ghost use Rattle.std.specs.List.{list_all};
ghost use Rattle.f3_tree.specs.Declarations.{shape_view, entity_view};
ghost use Rattle.f3_tree.specs.Expressions.{expression_view};
ghost use Rattle.f3_type_rules.specs.Scene.{Scene};
ghost use Rattle.f3_type_rules.specs.Finals.{is_explicit};
ghost use Rattle.f3_type_rules.specs.Attributes.{is_derived, is_deferred, is_open, conflicts};
ghost use Rattle.f3_declared.specs.Declarations.{IsRead, tree_of};
ghost use Rattle.f3_declared.specs.Spots.{spot_in};
ghost use Rattle.f3_declared.specs.Inner.Conflicts.{twice_by, allocatable_by, parameter_by, pure_by, shape_by, type_by, conflicts_by};

use crate::asking::{is_dummy, is_result, listings_of};
use crate::attributes::{Kinds, Reading, Standing, together};
use crate::bools::{both, either};
use crate::names::shape_of;
use crate::spots::Spot;
use f3_tree::declaration::{Entity, Shape, TypeSpecifier};
use f3_tree::expression::Expression;

fn is_derived(specifier: TypeSpecifier) -> bool
    ensures { result ≡ is_derived specifier }
{
    match specifier {
        TypeSpecifier::Derived(_) => true,
        TypeSpecifier::Integer(_) => false,
        TypeSpecifier::Logical => false,
    }
}

fn all_open(bounds: &[Option<Expression>]) -> bool
    ensures { result ≡ list_all (λ b. not (is_some b)) bounds.now }
{
    bounds.iter().all(|bound| bound.is_none())
}

fn is_shape_open(shape: &Shape) -> bool
    ensures { result ≡ is_open (Some (shape_view shape.now)) }
{
    match shape {
        Shape::Explicit(_) => false,
        Shape::Deferred(bounds) => all_open(bounds),
    }
}

fn is_open(shape: Option<&Shape>) -> bool
    ensures { result ≡ is_open (option_map (λ s. shape_view s.now) shape.entry) }
{
    match shape {
        Some(shape) => is_shape_open(shape),
        None => true,
    }
}

fn is_shape_deferred(shape: &Shape) -> bool
    ensures { result ≡ is_deferred (Some (shape_view shape.now)) }
{
    match shape {
        Shape::Explicit(_) => false,
        Shape::Deferred(_) => true,
    }
}

fn is_deferred(shape: Option<&Shape>) -> bool
    ensures { result ≡ is_deferred (option_map (λ s. shape_view s.now) shape.entry) }
{
    match shape {
        Some(shape) => is_shape_deferred(shape),
        None => false,
    }
}

fn is_shape_explicit(shape: &Shape) -> bool
    ensures { result ≡ is_explicit (Some (shape_view shape.now)) }
{
    match shape {
        Shape::Explicit(_) => true,
        Shape::Deferred(_) => false,
    }
}

fn is_explicit(shape: Option<&Shape>) -> bool
    ensures { result ≡ is_explicit (option_map (λ s. shape_view s.now) shape.entry) }
{
    match shape {
        Some(shape) => is_shape_explicit(shape),
        None => false,
    }
}

fn is_twice(kinds: Kinds, listed: Standing) -> bool
    ensures { result ≡ twice_by kinds listed }
{
    let protected = together(kinds.protected, listed);
    protected.twice
        || kinds.parameter.twice
        || kinds.save.twice
        || kinds.allocatable.twice
        || kinds.dimension.twice
        || kinds.intent.twice
}

fn is_allocatable_wrong(kinds: Kinds, initial: bool, shape: Option<&Shape>) -> bool
    ensures { result ≡ allocatable_by kinds initial (option_map (λ s. shape_view s.now) shape.entry) }
{
    kinds.allocatable.once && (kinds.parameter.once || initial || !is_open(shape))
}

fn is_parameter_wrong(kinds: Kinds, initial: bool, derived: bool, shape: Option<&Shape>) -> bool
    ensures { result ≡ parameter_by kinds initial derived (option_map (λ s. shape_view s.now) shape.entry) }
{
    kinds.parameter.once
        && (!initial || kinds.save.once || kinds.intent.once || shape.is_some() || derived)
}

fn is_pure_wrong(kinds: Kinds, is_pure: bool, initial: bool) -> bool
    ensures { result ≡ pure_by kinds is_pure initial }
{
    is_pure && !kinds.parameter.once && (kinds.save.once || initial)
}

fn is_shape_wrong(kinds: Kinds, dummy: bool, shape: Option<&Shape>) -> bool
    ensures { result ≡ shape_by kinds dummy (option_map (λ s. shape_view s.now) shape.entry) }
{
    is_deferred(shape) && !kinds.allocatable.once && !dummy
}

fn is_type_wrong(kinds: Kinds, is_type: bool) -> bool
    ensures { result ≡ type_by kinds is_type }
{
    is_type
        && (kinds.protected.once || kinds.parameter.once || kinds.save.once || kinds.intent.once)
}

/// What the rule asks of a name besides its attributes and its shape.
#[derive(Clone, Copy)]
struct Asked {
    is_type: bool,
    is_pure: bool,
    dummy: bool,
    of_procedure: bool,
    initial: bool,
    derived: bool,
}

fn conflicts_by(kinds: Kinds, listed: Standing, asked: Asked, shape: Option<&Shape>) -> bool
    ensures { result ≡ conflicts_by kinds listed asked.is_type asked.is_pure asked.dummy asked.of_procedure asked.initial asked.derived (option_map (λ s. shape_view s.now) shape.entry) }
{
    let broken = is_twice(kinds, listed);
    let broken = either(broken, is_allocatable_wrong(kinds, asked.initial, shape));
    let parameter = is_parameter_wrong(kinds, asked.initial, asked.derived, shape);
    let broken = either(broken, parameter);
    let broken = either(
        broken,
        both(asked.initial, either(asked.of_procedure, asked.derived)),
    );
    let broken = either(broken, both(kinds.save.once, asked.of_procedure));
    let broken = either(broken, is_pure_wrong(kinds, asked.is_pure, asked.initial));
    let broken = either(broken, is_shape_wrong(kinds, asked.dummy, shape));
    let broken = either(broken, both(is_explicit(shape), asked.dummy));
    either(broken, is_type_wrong(kinds, asked.is_type))
}

/// Whether attributes of a declared name do not stand together, with the listings of PROTECTED statements (T1).
pub fn conflicts(spot: &Spot<'_>, reading: &Reading<'_>, entity: &Entity) -> bool
    requires { IsRead reading.now }
    ensures { (scene : Scene) → result ≡ conflicts (spot_in scene spot.now) (tree_of reading.now, entity_view entity.now) }
{
    let symbol = entity.name.symbol;
    let dummy = is_dummy(spot, symbol);
    let outcome = is_result(spot, symbol);
    let asked = Asked {
        is_type: spot.is_type,
        is_pure: spot.is_pure,
        dummy,
        of_procedure: either(dummy, outcome),
        initial: entity.initial.is_some(),
        derived: is_derived(reading.declaration.specifier),
    };
    let shape = shape_of(reading, entity);
    conflicts_by(reading.kinds, listings_of(spot, symbol), asked, shape)
}
