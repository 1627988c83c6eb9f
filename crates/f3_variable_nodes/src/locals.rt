//! The variables of the activations of procedures, and of the main program (5.1.2.13, 12.5.2).

ghost use Rattle.std.specs.Prelude.{◌≡◌, ◌++◌, ◌∷◌, [], ℕ, map, filter, IfOk, OnOk};
ghost use Rattle.f3_tree.specs.Declarations.{EntityTree, declaration_view, entity_view, specification_view};
ghost use Rattle.f3_tree.specs.Tree.{procedure_view, unit_view};
ghost use Rattle.f3_type_rules.specs.Members.{Member, Numbered};
ghost use Rattle.f3_declared.specs.Declarations.{IsRead, tree_of};
ghost use Rattle.f3_elaboration.specs.Declarations as elaborated;
ghost use Rattle.f3_elaboration.specs.DeclaredViews.{declared_view};
ghost use Rattle.f3_elaboration.specs.Numbers as numbers;
ghost use Rattle.f3_elaboration.specs.Numbers.{Inner};
ghost use Rattle.f3_declaration_nodes.specs.Stands.{Stands};
ghost use Rattle.f3_declaration_nodes.specs.Tables.{declared_by};
ghost use Rattle.f3_variable_nodes.specs.Headers.{symbols_of};
ghost use Rattle.f3_variable_nodes.specs.Locals.{is_local_beside, trees, trees_in};

use crate::places::{HeaderNames, header_names, is_local, no_names};
use f3_declaration_nodes::declared::make_declared;
use f3_declaration_nodes::whole::Whole;
use f3_declared::attributes::{Reading, read};
use f3_program::declarations::Declared;
use f3_tree::declaration::{Declaration, Entity, Specification};
use f3_tree::program::{Procedure, Unit};
use std::alloc::{AllocError, Global};

/// Where a specification part stands, and which names the header before it has.
#[derive(Clone, Copy)]
struct Home<'a> {
    unit: usize,
    scope: usize,
    names: &'a HeaderNames<'a>,
}

/// Adds a declared name where it is one.
fn add_name(
    alloc: Global,
    whole: Whole<'_>,
    home: Home<'_>,
    found: &mut Vec<Declared>,
    reading: &Reading<'_>,
    entity: &Entity,
) -> Result<(), AllocError>
    requires { IsRead reading.now }
    ensures { OnOk result (map declared_view found.new.items ≡ map declared_view found.old.items ++ map (declared_by whole.entry home.entry.unit home.entry.scope) (filter (is_local_beside (symbols_of home.entry.names.now)) ((tree_of reading.now, entity_view entity.now) ∷ []))) }
{
    if is_local(home.names, reading, entity) {
        let made = make_declared(alloc, whole, home.unit, home.scope, reading, entity)?;
        found.push(made)?;
    }
    Ok(())
}

fn add_declaration(
    alloc: Global,
    whole: Whole<'_>,
    home: Home<'_>,
    found: &mut Vec<Declared>,
    declaration: &Declaration,
) -> Result<(), AllocError>
    ensures { OnOk result (map declared_view found.new.items ≡ map declared_view found.old.items ++ map (declared_by whole.entry home.entry.unit home.entry.scope) (filter (is_local_beside (symbols_of home.entry.names.now)) (map (λ (x : EntityTree). (declaration_view declaration.now, x)) (declaration_view declaration.now).entities))) }
{
    let reading = read(declaration);
    for entity in &declaration.entities {
        add_name(alloc, whole, home, found, &reading, entity)?;
    }
    Ok(())
}

fn add_specification(
    alloc: Global,
    whole: Whole<'_>,
    home: Home<'_>,
    found: &mut Vec<Declared>,
    specification: &Specification,
) -> Result<(), AllocError>
    ensures { OnOk result (map declared_view found.new.items ≡ map declared_view found.old.items ++ map (declared_by whole.entry home.entry.unit home.entry.scope) (filter (is_local_beside (symbols_of home.entry.names.now)) (trees_in (specification_view specification.now)))) }
{
    match specification {
        Specification::Declaration(declaration) => {
            add_declaration(alloc, whole, home, found, declaration)
        }
        Specification::Access(_) => Ok(()),
        Specification::Protected(_, _) => Ok(()),
        Specification::Save(_) => Ok(()),
        Specification::Type(_) => Ok(()),
    }
}

fn part_locals(
    alloc: Global,
    whole: Whole<'_>,
    home: Home<'_>,
    list: &[Specification],
) -> Result<Vec<Declared>, AllocError>
    ensures { IfOk result (λ v. map declared_view v.items ≡ map (declared_by whole.entry home.entry.unit home.entry.scope) (filter (is_local_beside (symbols_of home.entry.names.now)) (trees (map specification_view list.now)))) }
{
    let mut found = Vec::new(alloc);
    for specification in list {
        add_specification(alloc, whole, home, &mut found, specification)?;
    }
    Ok(found)
}

/// The variables of the activations of a procedure, in order: those that are neither saved, dummies nor the result.
///
/// # Errors
///
/// Where memory runs out.
pub fn member_locals(
    alloc: Global,
    whole: Whole<'_>,
    unit: usize,
    scope: usize,
    procedure: &Procedure,
) -> Result<Vec<Declared>, AllocError>
    ensures { IfOk result (λ v. (w : elaborated.Whole) (inner : Inner) (m : Member) → Stands whole.entry w inner → m.scope ≡ scope → m.tree ≡ procedure_view procedure.now → map declared_view v.items ≡ map (elaborated.variable w) (numbers.member_locals unit m)) }
{
    let names = header_names(alloc, &procedure.header)?;
    let home = Home {
        unit,
        scope,
        names: &names,
    };
    let found = part_locals(alloc, whole, home, &procedure.part.specifications)?;
    Ok(found)
}

/// The variables of the main program that are not saved, in order.
///
/// # Errors
///
/// Where memory runs out.
pub fn main_locals(
    alloc: Global,
    whole: Whole<'_>,
    scope: usize,
    unit: &Unit,
) -> Result<Vec<Declared>, AllocError>
    ensures { IfOk result (λ v. (w : elaborated.Whole) (inner : Inner) (u : Numbered) → Stands whole.entry w inner → u.scope ≡ scope → u.tree ≡ unit_view unit.now → map declared_view v.items ≡ map (elaborated.variable w) (numbers.main_locals u)) }
{
    let names = no_names(alloc)?;
    let home = Home {
        unit: scope,
        scope,
        names: &names,
    };
    let found = part_locals(alloc, whole, home, &unit.part.specifications)?;
    Ok(found)
}
