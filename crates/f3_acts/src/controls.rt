//! Controls of DO constructs.

ghost use Rattle.std.specs.Prelude.{◌≡◌, OnOk, IfOk, [], ◌∷◌, ◌++◌, option_map};
ghost use Rattle.f3_tree.specs.Expressions.{expression_view};
ghost use Rattle.f3_tree.specs.Statements as tree;
ghost use Rattle.f3_tree.specs.Statements.{control_view};
ghost use Rattle.f3_kinds.specs.declared.said.Has.{Has};
ghost use Rattle.f3_kinds.specs.declared.said.Role.TheVariants as role;
ghost use Rattle.f3_kinds.specs.Things.{map_or};
ghost use Rattle.f3_kinds.specs.Typing.{designator_at};
ghost use Rattle.f3_type_rules.specs.Statements.{number_defined, variable_of, control_breaks};
ghost use Rattle.f3_type_rules.specs.Definitions.{definition_rows, control_definitions, first_entity_of, in_loop};
ghost use Rattle.f3_type_rules.specs.Bodies.{control_rows};
ghost use Rattle.f3_typed_parts.specs.Noted.{noted};
ghost use Rattle.f3_sites.specs.Sites.{site_of};

use crate::conditions::{condition, number, step};
use f3_definable::definable::definition;
use f3_kinds::said::{Form, Role, Said};
use f3_kinds::types::Wanted;
use f3_references::settling::settle;
use f3_rules::breaks::Break;
use f3_sites::site::Site;
use f3_tree::expression::{Expression, Name};
use f3_tree::statement::Control;
use f3_typed_parts::rows::scalar;
use f3_typing::senses::designator;
use f3_typing::typing::alone;
use std::alloc::{AllocError, Global};

/// The entity that a variable begins with, if it is one.
fn entity_of(said: &Said) -> Option<usize>
    ensures { map_or [] (λ e. e ∷ []) result ≡ map_or [] (λ (h : Has). first_entity_of h.form) said.now.has }
{
    match said.has {
        Some(has) => match has.form {
            Form::Variable(entity) => Some(entity),
            Form::Constant => None,
            Form::Computed => None,
        },
        None => None,
    }
}

/// A DO variable; its breaks of phase 7 are noted apart.
#[tactic(auto, using(f3_typed_parts::proofs::Noting::noted_more))]
fn variable(
    alloc: Global,
    site: &Site<'_>,
    first: &mut Option<Break>,
    later: &mut Option<Break>,
    name: Name,
) -> Result<Option<usize>, AllocError>
    ensures noted { OnOk result (first.new ≡ noted first.old (number_defined (site_of site.now).context (variable_of name))) }
    ensures defined { OnOk result (later.new ≡ noted later.old (definition_rows (site_of site.now) (designator_at (site_of site.now).context role.Variable (variable_of name)))) }
    ensures active { IfOk result (λ v. map_or [] (λ e. e ∷ []) v ≡ map_or [] (λ (h : Has). first_entity_of h.form) (designator_at (site_of site.now).context role.Variable (variable_of name)).has) }
{
    let part = alone(name);
    let said = designator(alloc, &site.known, site.at, first, Role::Variable, &[part])?;
    scalar(first, Wanted::Integer, &said);
    definition(site, later, &said);
    Ok(entity_of(&said))
}

/// A DO variable, its bounds and its step.
#[tactic(auto, using(f3_typed_parts::proofs::Noting::noted_more))]
fn counted(
    alloc: Global,
    site: &Site<'_>,
    first: &mut Option<Break>,
    later: &mut Option<Break>,
    name: Name,
    from: &Expression,
    to: &Expression,
    by: &Option<Expression>,
) -> Result<Option<usize>, AllocError>
    ensures noted { OnOk result (first.new ≡ noted first.old (control_breaks (site_of site.now).context (tree.counted name (expression_view from.now) (expression_view to.now) (option_map expression_view by.now)))) }
    ensures defined { OnOk result (later.new ≡ noted later.old (definition_rows (site_of site.now) (designator_at (site_of site.now).context role.Variable (variable_of name)))) }
    ensures active { IfOk result (λ v. map_or [] (λ e. e ∷ []) v ≡ map_or [] (λ (h : Has). first_entity_of h.form) (designator_at (site_of site.now).context role.Variable (variable_of name)).has) }
{
    let entity = variable(alloc, site, first, later, name)?;
    number(alloc, &site.known, site.at, first, from)?;
    number(alloc, &site.known, site.at, first, to)?;
    step(alloc, &site.known, site.at, first, by)?;
    Ok(entity)
}

/// A control; its breaks of phase 7 are noted apart.
#[tactic(auto, using(f3_typed_parts::proofs::Noting::noted_none, crate::proofs::Rows::noted_one, crate::proofs::Rows::one_more))]
fn controlled(
    alloc: Global,
    site: &Site<'_>,
    first: &mut Option<Break>,
    later: &mut Option<Break>,
    control: &Control,
) -> Result<Option<usize>, AllocError>
    ensures noted { OnOk result (first.new ≡ noted first.old (control_breaks (site_of site.now).context (control_view control.now))) }
    ensures defined { OnOk result (later.new ≡ noted later.old (control_definitions (site_of site.now) (control_view control.now))) }
    ensures active { IfOk result (λ v. (in_loop (site_of site.now) (control_view control.now)).active ≡ map_or [] (λ e. e ∷ []) v ++ (site_of site.now).active) }
{
    match control {
        Control::Forever => Ok(None),
        Control::While(e) => {
            condition(alloc, &site.known, site.at, first, e)?;
            Ok(None)
        }
        Control::Counted(name, from, to, by) => {
            counted(alloc, site, first, later, *name, from, to, by)
        }
    }
}

/// Notes the first break of phases 6 and 7 of the control of a DO construct (8.1.6): its condition a scalar logical; its variable, which
/// it defines, its bounds and its step scalar integers. Answers the entity that is active as a DO variable inside the loop, if one is.
/// It fails where memory runs out.
#[tactic(auto, using(crate::proofs::Rows::both_phases))]
pub fn control(
    alloc: Global,
    site: &Site<'_>,
    first: &mut Option<Break>,
    control: &Control,
) -> Result<Option<usize>, AllocError>
    ensures noted { OnOk result (first.new ≡ noted first.old (control_rows (site_of site.now) (control_view control.now))) }
    ensures active { IfOk result (λ v. (in_loop (site_of site.now) (control_view control.now)).active ≡ map_or [] (λ e. e ∷ []) v ++ (site_of site.now).active) }
{
    let mut later = None;
    let entity = controlled(alloc, site, first, &mut later, control)?;
    settle(first, later);
    Ok(entity)
}
