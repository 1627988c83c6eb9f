//! Type declaration statements.

ghost use Rattle.std.specs.Prelude.{◌≡◌, ◌<◌, ◌≤◌, length, map, IfOk, is_some};
ghost use Rattle.std.specs.List.{list_any};
ghost use Rattle.std.specs.Option.{option_map};
ghost use Rattle.f3_tree.specs.Expressions.{expression_view};
ghost use Rattle.f3_tree.specs.Declarations.{placed_view, entity_view, declaration_view};
ghost use Rattle.f3_words.specs.Reads.{Reads, Finds};
ghost use Rattle.f3_declarations.specs.Inner.Views.{AsDeclared};
ghost use Rattle.f3_declarations.specs.Specifications.{EatsInitialPerhaps, EatsEntity, AreEntities, needs_colons, IsDeclarationBehind, IsDeclaration};

use crate::attributes::{attributes, specifier};
use crate::shapes::shape_perhaps;
use f3_expressions::expressions::expression;
use f3_places::source::Place;
use f3_reading::lists::{list, perhaps};
use f3_reading::names::skip_colons;
use f3_reading::signs::{is_over, name};
use f3_tree::declaration::{Attribute, Declaration, Entity, TypeSpecifier};
use f3_tree::expression::Expression;
use f3_words::error::ReadError;
use f3_words::item::{Item, Word};
use std::alloc::Global;

/// The initializer at the front, where there is one.
fn initial_perhaps(
    alloc: Global,
    items: &[Item],
) -> Result<(Option<Expression>, &[Item]), ReadError>
    ensures read { Reads EatsInitialPerhaps (λ e. option_map expression_view e) result items.now }
    ensures shorter { IfOk result (λ x. length x.1.now ≤ length items.now) }
{
    perhaps(Word::Equals, items, |tokens| expression(alloc, tokens))
}

/// The entity at the front.
#[tactic(auto, unfolding(crate::specs::Specifications::EatsEntity))]
fn entity(alloc: Global, items: &[Item]) -> Result<(Entity, &[Item]), ReadError>
    ensures read { Reads EatsEntity entity_view result items.now }
    ensures shorter { IfOk result (λ x. length x.1.now < length items.now) }
{
    let (name, rest) = name(items)?;
    let (shape, rest) = shape_perhaps(alloc, rest)?;
    let (initial, rest) = initial_perhaps(alloc, rest)?;
    Ok((
        Entity {
            name,
            shape,
            initial,
        },
        rest,
    ))
}

/// The entities at the front, with commas between them.
fn entities(alloc: Global, items: &[Item]) -> Result<(Vec<Entity>, &[Item]), ReadError>
    ensures read { Reads AreEntities (λ v. map entity_view v.items) result items.now }
    ensures shorter { IfOk result (λ x. length x.1.now ≤ length items.now) }
{
    list(alloc, items, |tokens| entity(alloc, tokens))
}

/// Whether one of them has an initializer.
fn has_initial(entities: &[Entity]) -> bool
    ensures { result ≡ list_any (λ e. is_some e.initial) entities.now }
{
    entities.iter().any(|entity| entity.initial.is_some())
}

/// Whether a declaration of these needs its `::`.
fn needs_colons(attributes: &[Attribute], entities: &[Entity]) -> bool
    ensures { result ≡ needs_colons (map placed_view attributes.now) (map entity_view entities.now) }
{
    match attributes {
        [] => has_initial(entities),
        _ => true,
    }
}

/// The declaration of these at the place, with `::` or without, if it has its `::` where it needs one.
fn with_colons(
    place: Place,
    specifier: TypeSpecifier,
    colons: bool,
    attributes: Vec<Attribute>,
    entities: Vec<Entity>,
) -> Option<Declaration>
    ensures { AsDeclared place specifier colons (map placed_view attributes.items) (map entity_view entities.items) result }
{
    if !colons && needs_colons(&attributes, &entities) {
        return None;
    }
    Some(Declaration {
        place,
        specifier,
        attributes,
        entities,
    })
}

/// The declaration behind its specifier.
#[tactic(auto, unfolding(crate::specs::Specifications::IsDeclarationBehind))]
fn declaration_behind(
    alloc: Global,
    place: Place,
    specifier: TypeSpecifier,
    items: &[Item],
) -> Result<Declaration, ReadError>
    ensures { Finds (IsDeclarationBehind place specifier) declaration_view result items.now }
{
    let (attributes, rest) = attributes(alloc, items)?;
    let (colons, rest) = skip_colons(rest);
    let (entities, rest) = entities(alloc, rest)?;
    if !is_over(rest) {
        return Err(ReadError::NoForm);
    }
    match with_colons(place, specifier, colons, attributes, entities) {
        Some(found) => Ok(found),
        None => Err(ReadError::NoForm),
    }
}

/// The declaration at the place that all of the tokens spell.
#[tactic(auto, unfolding(crate::specs::Specifications::IsDeclaration))]
pub fn declaration(alloc: Global, place: Place, items: &[Item]) -> Result<Declaration, ReadError>
    ensures { Finds (IsDeclaration place) declaration_view result items.now }
{
    let (specifier, rest) = specifier(items)?;
    Ok(declaration_behind(alloc, place, specifier, rest)?)
}
