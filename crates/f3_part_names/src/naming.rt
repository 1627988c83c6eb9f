//! The names to which expressions and declarations refer.

ghost use Rattle.std.specs.Prelude.{◌≡◌, ◌++◌, List, [], ◌∷◌, map, OnOk};
ghost use Rattle.std.specs.Option.{option_map};
ghost use Rattle.std.specs.List.{flat_map};
ghost use Rattle.f3_tree.specs.Expressions.{Tree, expression_view, argument_view, trees_of, rest_of, arguments_of, parts_list, part_view};
ghost use Rattle.f3_tree.specs.Declarations.{shape_view, bounds_view, placed_view, entity_view, declaration_view, specification_view};
ghost use Rattle.f3_part_names.specs.Names.{named, named_all, named_rest, first_name, named_components, in_parentheses, named_arguments, named_argument, named_in, named_bounds, named_shape, named_shape_in, named_specifier, named_attribute, named_placed, named_entity, named_declaration, named_type, named_specification, operand_view, lower_view};

use f3_tree::declaration::{
    Attribute, AttributeKind, Declaration, Entity, Shape, Specification, TypeSpecifier,
};
use f3_tree::expression::{Argument, Expression, Name, Operator};
use std::alloc::AllocError;

/// Adds the names to which an expression refers.
#[cycle(naming)]
pub fn expression(names: &mut Vec<Name>, e: &Expression) -> Result<(), AllocError>
    ensures { OnOk result (names.new.items ≡ names.old.items ++ named (expression_view e.now)) }
{
    match e {
        Expression::Integer(_, _) => Ok(()),
        Expression::Truth(_, _) => Ok(()),
        Expression::Text(_, _) => Ok(()),
        Expression::Designator(parts) => {
            if let [first, ..] = parts.as_slice() {
                names.push(first.0)?;
            }
            in_parentheses(names, e)
        }
        Expression::Group(_, inner) => expression(names, inner),
        Expression::Array(_, elements) => all(names, elements),
        Expression::Signed(_, _, inner) => expression(names, inner),
        Expression::Not(_, inner) => expression(names, inner),
        Expression::Comparison(left, _, right) => {
            expression(names, left)?;
            expression(names, right)
        }
        Expression::Chain(first, others) => {
            expression(names, first)?;
            rest(names, others)
        }
    }
}

#[cycle(naming)]
fn all(names: &mut Vec<Name>, elements: &[Expression]) -> Result<(), AllocError>
    ensures { OnOk result (names.new.items ≡ names.old.items ++ named_all (trees_of (map expression_view elements.now))) }
{
    for e in elements {
        expression(names, e)?;
    }
    Ok(())
}

#[cycle(naming)]
fn rest(names: &mut Vec<Name>, others: &[(Operator, Expression)]) -> Result<(), AllocError>
    ensures { OnOk result (names.new.items ≡ names.old.items ++ named_rest (rest_of (map operand_view others.now))) }
{
    for (_, e) in others {
        expression(names, e)?;
    }
    Ok(())
}

/// The names in the parentheses of a designator.
#[cycle(naming)]
fn in_parentheses(names: &mut Vec<Name>, e: &Expression) -> Result<(), AllocError>
    ensures { OnOk result (names.new.items ≡ names.old.items ++ in_parentheses (expression_view e.now)) }
{
    if let Expression::Designator(parts) = e {
        for part in parts {
            if let Some(list) = &part.1 {
                arguments(names, list)?;
            }
        }
    }
    Ok(())
}

#[cycle(naming)]
fn arguments(names: &mut Vec<Name>, list: &[Argument]) -> Result<(), AllocError>
    ensures { OnOk result (names.new.items ≡ names.old.items ++ named_arguments (arguments_of (map argument_view list.now))) }
{
    for argument in list {
        one_argument(names, argument)?;
    }
    Ok(())
}

#[cycle(naming)]
fn one_argument(names: &mut Vec<Name>, argument: &Argument) -> Result<(), AllocError>
    ensures { OnOk result (names.new.items ≡ names.old.items ++ named_argument (argument_view argument.now)) }
{
    match argument {
        Argument::Value(_, e) => expression(names, e),
        Argument::Triplet(_, first, last, stride) => {
            perhaps(names, first)?;
            perhaps(names, last)?;
            perhaps(names, stride)
        }
    }
}

#[cycle(naming)]
fn perhaps(names: &mut Vec<Name>, e: &Option<Expression>) -> Result<(), AllocError>
    ensures { OnOk result (names.new.items ≡ names.old.items ++ named_in (option_map expression_view e.now)) }
{
    match e {
        Some(e) => expression(names, e),
        None => Ok(()),
    }
}

/// Adds the names in an expression, where there is one.
fn initial(names: &mut Vec<Name>, e: &Option<Expression>) -> Result<(), AllocError>
    ensures { OnOk result (names.new.items ≡ names.old.items ++ named_in (option_map expression_view e.now)) }
{
    match e {
        Some(e) => expression(names, e),
        None => Ok(()),
    }
}

fn bounds(
    names: &mut Vec<Name>,
    list: &[(Option<Expression>, Expression)],
) -> Result<(), AllocError>
    ensures { OnOk result (names.new.items ≡ names.old.items ++ flat_map named_bounds (map bounds_view list.now)) }
{
    for (lower, upper) in list {
        initial(names, lower)?;
        expression(names, upper)?;
    }
    Ok(())
}

fn lowers(names: &mut Vec<Name>, list: &[Option<Expression>]) -> Result<(), AllocError>
    ensures { OnOk result (names.new.items ≡ names.old.items ++ flat_map named_in (map lower_view list.now)) }
{
    for lower in list {
        initial(names, lower)?;
    }
    Ok(())
}

fn shape(names: &mut Vec<Name>, shape: &Shape) -> Result<(), AllocError>
    ensures { OnOk result (names.new.items ≡ names.old.items ++ named_shape (shape_view shape.now)) }
{
    match shape {
        Shape::Explicit(list) => bounds(names, list),
        Shape::Deferred(list) => lowers(names, list),
    }
}

/// Adds the name of a derived type.
pub fn specifier(names: &mut Vec<Name>, specifier: TypeSpecifier) -> Result<(), AllocError>
    ensures { OnOk result (names.new.items ≡ names.old.items ++ named_specifier specifier) }
{
    match specifier {
        TypeSpecifier::Derived(name) => {
            names.push(name)?;
            Ok(())
        }
        TypeSpecifier::Integer(_) => Ok(()),
        TypeSpecifier::Logical => Ok(()),
    }
}

fn attribute(names: &mut Vec<Name>, attribute: &Attribute) -> Result<(), AllocError>
    ensures { OnOk result (names.new.items ≡ names.old.items ++ named_placed (placed_view attribute.now)) }
{
    match &attribute.kind {
        AttributeKind::Dimension(extent) => shape(names, extent),
        AttributeKind::Access(_) => Ok(()),
        AttributeKind::Protected => Ok(()),
        AttributeKind::Parameter => Ok(()),
        AttributeKind::Save => Ok(()),
        AttributeKind::Allocatable => Ok(()),
        AttributeKind::Intent(_) => Ok(()),
    }
}

fn attributes(names: &mut Vec<Name>, list: &[Attribute]) -> Result<(), AllocError>
    ensures { OnOk result (names.new.items ≡ names.old.items ++ flat_map named_placed (map placed_view list.now)) }
{
    for one in list {
        attribute(names, one)?;
    }
    Ok(())
}

fn entity(names: &mut Vec<Name>, entity: &Entity) -> Result<(), AllocError>
    ensures { OnOk result (names.new.items ≡ names.old.items ++ named_entity (entity_view entity.now)) }
{
    if let Some(own) = &entity.shape {
        shape(names, own)?;
    }
    initial(names, &entity.initial)
}

fn entities(names: &mut Vec<Name>, list: &[Entity]) -> Result<(), AllocError>
    ensures { OnOk result (names.new.items ≡ names.old.items ++ flat_map named_entity (map entity_view list.now)) }
{
    for one in list {
        entity(names, one)?;
    }
    Ok(())
}

fn declaration(names: &mut Vec<Name>, declaration: &Declaration) -> Result<(), AllocError>
    ensures { OnOk result (names.new.items ≡ names.old.items ++ named_declaration (declaration_view declaration.now)) }
{
    specifier(names, declaration.specifier)?;
    attributes(names, &declaration.attributes)?;
    entities(names, &declaration.entities)
}

fn declarations(names: &mut Vec<Name>, list: &[Declaration]) -> Result<(), AllocError>
    ensures { OnOk result (names.new.items ≡ names.old.items ++ flat_map named_declaration (map declaration_view list.now)) }
{
    for one in list {
        declaration(names, one)?;
    }
    Ok(())
}

fn specification(names: &mut Vec<Name>, specification: &Specification) -> Result<(), AllocError>
    ensures { OnOk result (names.new.items ≡ names.old.items ++ named_specification (specification_view specification.now)) }
{
    match specification {
        Specification::Declaration(one) => declaration(names, one),
        Specification::Type(definition) => {
            declarations(names, &definition.components)?;
            names.extend_from_slice(&definition.finals)?;
            Ok(())
        }
        Specification::Access(_) => Ok(()),
        Specification::Protected(_, _) => Ok(()),
        Specification::Save(_) => Ok(()),
    }
}

/// Adds the names to which the statements of a specification part refer.
pub fn specifications(names: &mut Vec<Name>, list: &[Specification]) -> Result<(), AllocError>
    ensures { OnOk result (names.new.items ≡ names.old.items ++ flat_map named_specification (map specification_view list.now)) }
{
    for one in list {
        specification(names, one)?;
    }
    Ok(())
}
