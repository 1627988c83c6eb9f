//! Actions.

ghost use Rattle.std.specs.Prelude.{◌≡◌, ◌++◌, OnOk, Some, [], ◌∷◌, map, option_map};
ghost use Rattle.std.specs.List.{flat_map};
ghost use Rattle.f3_tree.specs.Expressions.{Parts, expression_view, designator_view, parts_list, part_view};
ghost use Rattle.f3_tree.specs.Statements as tree;
ghost use Rattle.f3_tree.specs.Statements.{action_view};
ghost use Rattle.f3_kinds.specs.declared.said.Role.TheVariants as role;
ghost use Rattle.f3_kinds.specs.Things.{map_or};
ghost use Rattle.f3_kinds.specs.Typing.{designator_at, designator_breaks};
ghost use Rattle.f3_type_rules.specs.Statements.{assigned_has, assigned_rows, item_rows, item_breaks, number_defined, act_breaks};
ghost use Rattle.f3_type_rules.specs.Definitions.{definition_rows, defined};
ghost use Rattle.f3_type_rules.specs.Bodies.{act_rows};
ghost use Rattle.f3_typed_parts.specs.Known.{context_of};
ghost use Rattle.f3_typed_parts.specs.Noted.{noted};
ghost use Rattle.f3_sites.specs.Sites.{site_of};
ghost use Rattle.f3_acts.specs.Inner.Rows.{object_breaks, object_definition, item_row, is_text};

use crate::calls::subroutine;
use crate::impurity::impure;
use f3_definable::definable::definition;
use f3_kinds::said::{Has, Role, Said};
use f3_kinds::types::Wanted;
use f3_places::source::Place;
use f3_references::settling::settle;
use f3_rules::breaks::Break;
use f3_rules::rule::Rule;
use f3_sites::site::Site;
use f3_tree::expression::{Argument, Expression, Name};
use f3_tree::statement::{Action, Designator};
use f3_typed_parts::known::{Known, Position};
use f3_typed_parts::noted::{at_place, unless};
use f3_typed_parts::operands::type_in;
use f3_typed_parts::rows::{is_wanted, may_take, scalar};
use f3_typing::designators::designator;
use f3_typing::typing::expression;
use std::alloc::{AllocError, Global};

/// Notes a value that a variable can't take.
#[tactic(auto, using(f3_typed_parts::proofs::Noting::noted_none, f3_typed_parts::proofs::Noting::noted_more))]
fn taken(first: &mut Option<Break>, place: Place, variable: Has, value: Has)
    ensures { first.new ≡ noted first.old (assigned_has place (Some variable) (Some value)) }
{
    if let Some(wanted) = variable.data_type {
        if let Some(given) = value.data_type {
            let shaped = value.rank == 0 || value.rank == variable.rank;
            unless(first, may_take(wanted, given), at_place(6, Rule::T6, place));
            unless(first, shaped, at_place(6, Rule::T7, place));
        }
    }
}

/// Notes an expression that a variable can't take.
#[tactic(auto, using(f3_typed_parts::proofs::Noting::noted_none))]
fn assigned(first: &mut Option<Break>, variable: &Said, value: &Said)
    ensures { first.new ≡ noted first.old (assigned_rows variable.now value.now) }
{
    if let Some(has) = variable.has {
        if let Some(given) = value.has {
            taken(first, value.place, has, given);
        }
    }
}

/// An assignment; its breaks of phase 7 are noted apart.
#[tactic(auto, using(f3_typed_parts::proofs::Noting::noted_more, crate::proofs::Rows::noted_one))]
fn assignment(
    alloc: Global,
    site: &Site<'_>,
    first: &mut Option<Break>,
    later: &mut Option<Break>,
    variable: &[(Name, Option<Vec<Argument>>)],
    value: &Expression,
) -> Result<(), AllocError>
    ensures noted { OnOk result (first.new ≡ noted first.old (act_breaks (site_of site.now).context (tree.assign (parts_list (map part_view variable.now)) (expression_view value.now)))) }
    ensures defined { OnOk result (later.new ≡ noted later.old (flat_map (definition_rows (site_of site.now)) (defined (site_of site.now).context (tree.assign (parts_list (map part_view variable.now)) (expression_view value.now))))) }
{
    let variable = designator(alloc, &site.known, site.at, first, Role::Variable, variable)?;
    let value = expression(alloc, &site.known, site.at, first, value)?;
    assigned(first, &variable, &value);
    definition(site, later, &variable);
    Ok(())
}

/// The objects of an ALLOCATE or a DEALLOCATE; their breaks of phase 7 are noted apart.
fn objects(
    alloc: Global,
    site: &Site<'_>,
    first: &mut Option<Break>,
    later: &mut Option<Break>,
    purpose: Role,
    objects: &[Designator],
) -> Result<(), AllocError>
    ensures noted { OnOk result (first.new ≡ noted first.old (flat_map (object_breaks (site_of site.now).context purpose) objects.now)) }
    ensures defined { OnOk result (later.new ≡ noted later.old (flat_map (object_definition (site_of site.now) purpose) objects.now)) }
{
    for object in objects {
        let said = designator(alloc, &site.known, site.at, first, purpose, object)?;
        definition(site, later, &said);
    }
    Ok(())
}

/// A scalar integer variable that is defined; its breaks of phase 7 are noted apart.
#[tactic(auto, using(f3_typed_parts::proofs::Noting::noted_more))]
fn number_variable(
    alloc: Global,
    site: &Site<'_>,
    first: &mut Option<Break>,
    later: &mut Option<Break>,
    variable: &[(Name, Option<Vec<Argument>>)],
) -> Result<(), AllocError>
    ensures noted { OnOk result (first.new ≡ noted first.old (number_defined (site_of site.now).context (parts_list (map part_view variable.now)))) }
    ensures defined { OnOk result (later.new ≡ noted later.old (definition_rows (site_of site.now) (designator_at (site_of site.now).context role.Variable (parts_list (map part_view variable.now))))) }
{
    let said = designator(alloc, &site.known, site.at, first, Role::Variable, variable)?;
    scalar(first, Wanted::Integer, &said);
    definition(site, later, &said);
    Ok(())
}

/// A STAT variable, where one is written; its breaks of phase 7 are noted apart.
#[tactic(auto, using(f3_typed_parts::proofs::Noting::noted_none, crate::proofs::Rows::noted_one))]
fn status(
    alloc: Global,
    site: &Site<'_>,
    first: &mut Option<Break>,
    later: &mut Option<Break>,
    variable: &Option<Designator>,
) -> Result<(), AllocError>
    ensures noted { OnOk result (first.new ≡ noted first.old (map_or [] (number_defined (site_of site.now).context) (option_map designator_view variable.now))) }
    ensures defined { OnOk result (later.new ≡ noted later.old (flat_map (definition_rows (site_of site.now)) (map_or [] (λ (v : Parts). designator_at (site_of site.now).context role.Variable v ∷ []) (option_map designator_view variable.now)))) }
{
    match variable {
        Some(variable) => number_variable(alloc, site, first, later, variable),
        None => Ok(()),
    }
}

/// An ALLOCATE or a DEALLOCATE; its breaks of phase 7 are noted apart.
#[tactic(auto, using(crate::proofs::Rows::objects_same, crate::proofs::Rows::objects_defined, f3_typed_parts::proofs::Noting::noted_more))]
fn allocation(
    alloc: Global,
    site: &Site<'_>,
    first: &mut Option<Break>,
    later: &mut Option<Break>,
    purpose: Role,
    list: &[Designator],
    variable: &Option<Designator>,
) -> Result<(), AllocError>
    ensures noted { OnOk result (first.new ≡ noted first.old (flat_map (designator_breaks (site_of site.now).context purpose) (map designator_view list.now) ++ map_or [] (number_defined (site_of site.now).context) (option_map designator_view variable.now))) }
    ensures defined { OnOk result (later.new ≡ noted later.old (flat_map (definition_rows (site_of site.now)) (map (designator_at (site_of site.now).context purpose) (map designator_view list.now) ++ map_or [] (λ (v : Parts). designator_at (site_of site.now).context role.Variable v ∷ []) (option_map designator_view variable.now)))) }
{
    objects(alloc, site, first, later, purpose, list)?;
    status(alloc, site, first, later, variable)?;
    Ok(())
}

fn is_text(e: &Expression) -> bool
    ensures { result ≡ is_text (expression_view e.now) }
{
    match e {
        Expression::Text(_, _) => true,
        Expression::Integer(_, _) => false,
        Expression::Truth(_, _) => false,
        Expression::Designator(_) => false,
        Expression::Group(_, _) => false,
        Expression::Array(_, _) => false,
        Expression::Signed(_, _, _) => false,
        Expression::Not(_, _) => false,
        Expression::Comparison(_, _, _) => false,
        Expression::Chain(_, _) => false,
    }
}

#[tactic(auto, using(f3_typed_parts::proofs::Noting::noted_none))]
fn item_rows(first: &mut Option<Break>, said: &Said)
    ensures { first.new ≡ noted first.old (item_rows said.now) }
{
    if let Some(data_type) = type_in(said.has) {
        unless(
            first,
            is_wanted(Wanted::Intrinsic, data_type),
            at_place(6, Rule::T6, said.place),
        );
    }
}

/// An item of a PRINT.
#[tactic(auto, using(f3_typed_parts::proofs::Noting::noted_none, f3_typed_parts::proofs::Noting::noted_more, crate::proofs::Rows::item_text, crate::proofs::Rows::item_other))]
fn item(
    alloc: Global,
    known: &Known<'_>,
    at: Position,
    first: &mut Option<Break>,
    e: &Expression,
) -> Result<(), AllocError>
    ensures { OnOk result (first.new ≡ noted first.old (item_breaks (context_of known.now at) (expression_view e.now))) }
{
    if is_text(e) {
        return Ok(());
    }
    let said = expression(alloc, known, at, first, e)?;
    item_rows(first, &said);
    Ok(())
}

fn items(
    alloc: Global,
    known: &Known<'_>,
    at: Position,
    first: &mut Option<Break>,
    list: &[Expression],
) -> Result<(), AllocError>
    ensures { OnOk result (first.new ≡ noted first.old (flat_map (item_row (context_of known.now at)) list.now)) }
{
    for e in list {
        item(alloc, known, at, first, e)?;
    }
    Ok(())
}

#[tactic(auto, using(crate::proofs::Rows::items_same))]
fn print(
    alloc: Global,
    known: &Known<'_>,
    at: Position,
    first: &mut Option<Break>,
    list: &[Expression],
) -> Result<(), AllocError>
    ensures { OnOk result (first.new ≡ noted first.old (flat_map (item_breaks (context_of known.now at)) (map expression_view list.now))) }
{
    items(alloc, known, at, first, list)
}

/// What an action says of types and defines; its breaks of phase 7 are noted apart.
#[tactic(auto, using(f3_typed_parts::proofs::Noting::noted_none))]
fn effects(
    alloc: Global,
    site: &Site<'_>,
    first: &mut Option<Break>,
    later: &mut Option<Break>,
    action: &Action,
) -> Result<(), AllocError>
    ensures noted { OnOk result (first.new ≡ noted first.old (act_breaks (site_of site.now).context (action_view action.now))) }
    ensures defined { OnOk result (later.new ≡ noted later.old (flat_map (definition_rows (site_of site.now)) (defined (site_of site.now).context (action_view action.now)))) }
{
    match action {
        Action::Assign(variable, value) => {
            assignment(alloc, site, first, later, variable, value)
        }
        Action::Call(name, list) => subroutine(alloc, site, first, later, *name, list),
        Action::Allocate(list, variable) => {
            allocation(alloc, site, first, later, Role::Allocated, list, variable)
        }
        Action::Deallocate(list, variable) => {
            allocation(alloc, site, first, later, Role::Deallocated, list, variable)
        }
        Action::Print(list) => print(alloc, &site.known, site.at, first, list),
        Action::Stop(_) => Ok(()),
        Action::Return => Ok(()),
        Action::Cycle => Ok(()),
        Action::Exit => Ok(()),
        Action::Continue => Ok(()),
    }
}

/// Notes the first break of phases 6 and 7 of an action that begins at a place: of its designators and expressions (6.3, 7.4.1, 9.5,
/// 12.4), of what it defines (16.5.7), and of what may not stand in a PURE procedure or a function (12.6). It fails where memory runs
/// out.
#[tactic(auto, using(f3_typed_parts::proofs::Noting::noted_more, crate::proofs::Rows::both_phases))]
pub fn act(
    alloc: Global,
    site: &Site<'_>,
    first: &mut Option<Break>,
    place: Place,
    action: &Action,
) -> Result<(), AllocError>
    ensures noted { OnOk result (first.new ≡ noted first.old (act_rows (site_of site.now) place (action_view action.now))) }
{
    let mut later = None;
    effects(alloc, site, first, &mut later, action)?;
    impure(site, &mut later, place, action);
    settle(first, later);
    Ok(())
}
