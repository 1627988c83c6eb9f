//! Blocks: all statements in them, one after the other, constructs with theirs.

ghost use Rattle.std.specs.Prelude.{◌≡◌, ◌+◌, ◌<◌, ◌^◌, true, map, length, OnOk, IfOk};
ghost use Rattle.f3_tree.specs.Expressions.{expression_view};
ghost use Rattle.f3_tree.specs.Statements as tree;
ghost use Rattle.f3_scopes.specs.Blocks.{branches_view, alternative_view, cases_view};
ghost use Rattle.f3_type_rules.specs.Associates.{constructs_of_block};
ghost use Rattle.f3_associates.specs.Known.{IsSettled};
ghost use Rattle.f3_sites.specs.Sites.{site_of};
ghost use Rattle.f3_numbers.specs.Surroundings.{surroundings_of};
ghost use Rattle.f3_elaboration.specs.Actions as actions;
ghost use Rattle.f3_elaboration.specs.Expressions as expressions;
ghost use Rattle.f3_elaboration.specs.Nodes as n;
ghost use Rattle.f3_elaboration.specs.Statements as elaborated;
ghost use Rattle.f3_elaboration.specs.Views as views;
ghost use Rattle.f3_inside.specs.Standing.{state_of, IsSame};
ghost use Rattle.f3_statement_nodes.specs.Inner.Along.{branches_at};
ghost use Rattle.f3_statement_nodes.specs.Inner.Counts.{count_of, count_of_branches, count_of_other, count_of_cases};
ghost use Rattle.f3_construct_nodes.specs.Nested.{branch_of};

use f3_action_nodes::actions::action;
use f3_construct_nodes::branches::{Branch, branched};
use f3_construct_nodes::cases::{add_case, chosen};
use f3_construct_nodes::constructs::{looped, selector};
use f3_construct_nodes::nodes::{associate, at, branch, many, nothing_done, select};
use f3_expression_nodes::expressions::expression;
use f3_inside::inside::{enter, leave};
use f3_inside::state::{State, surroundings};
use f3_numbers::surroundings::Surroundings;
use f3_places::source::Place;
use f3_program::statement::{Selector, Statement};
use f3_tree::expression::Expression;
use f3_tree::statement as tree;
use std::alloc::{AllocError, Global};

/// An action at a place.
fn acts(
    alloc: Global,
    from: Surroundings<'_>,
    place: Place,
    act: &tree::Action,
) -> Result<Statement, AllocError>
    ensures { IfOk result (λ s. views.statement_view s ≡ n.at place true (actions.action (surroundings_of from.entry) (tree.action_view act.now))) }
{
    let node = action(alloc, from, act)?;
    at(alloc, place, true, node)
}

/// A logical IF (8.1.2.4).
fn acts_if(
    alloc: Global,
    from: Surroundings<'_>,
    place: Place,
    e: &Expression,
    act: &tree::Action,
) -> Result<Statement, AllocError>
    ensures { IfOk result (λ s. views.statement_view s ≡ n.at place true (n.branch (expressions.expression (surroundings_of from.entry) (expression_view e.now)) (actions.action (surroundings_of from.entry) (tree.action_view act.now)) actions.nothing_done)) }
{
    let condition = expression(alloc, from, e)?;
    match action(alloc, from, act) {
        Ok(node) => {
            let inner = branch(alloc, condition, node, nothing_done(alloc))?;
            at(alloc, place, true, inner)
        }
        Err(error) => {
            drop(condition);
            Err(error)
        }
    }
}

/// The selectors of an ASSOCIATE construct, which are resolved outside of it (16.3).
fn selectors(
    alloc: Global,
    from: Surroundings<'_>,
    list: &[tree::Association],
) -> Result<Vec<Selector>, AllocError>
    ensures { IfOk result (λ v. map views.selector_view v.items ≡ map (elaborated.selector (surroundings_of from.entry)) (map tree.association_view list.now)) }
{
    let mut found = Vec::new(alloc);
    for association in list {
        found.push(selector(alloc, from, association)?)?;
    }
    Ok(found)
}

/// The statements of a block, the first construct in which has the number `next`; and the number of the next construct behind it.
///
/// # Errors
///
/// Where memory runs out: then the state is of no use any more.
#[cycle(blocks)]
pub fn block(
    alloc: Global,
    state: &mut State<'_>,
    mut next: usize,
    statements: &[tree::Statement],
) -> Result<(Vec<Statement>, usize), AllocError>
    requires settled { IsSettled (site_of state.old.site) }
    requires numbers { next + length (constructs_of_block (tree.block_of (map tree.statement_view statements.now))) < 2 ^ 64 }
    ensures nodes { IfOk result (λ r. views.statements_of (map views.statement_view r.0.items) ≡ elaborated.block (state_of state.old) next (tree.block_of (map tree.statement_view statements.now))) }
    ensures next { IfOk result (λ r. r.1 ≡ next + length (constructs_of_block (tree.block_of (map tree.statement_view statements.now)))) }
    ensures same { OnOk result (IsSame state.new state.old) }
{
    let mut found = Vec::new(alloc);
    for statement in statements {
        let (node, behind) = one(alloc, state, next, statement)?;
        found.push(node)?;
        next = behind;
    }
    Ok((found, next))
}

/// A statement, with what it holds.
#[cycle(blocks)]
fn one(
    alloc: Global,
    state: &mut State<'_>,
    next: usize,
    statement: &tree::Statement,
) -> Result<(Statement, usize), AllocError>
    requires settled { IsSettled (site_of state.old.site) }
    requires numbers { next + count_of (tree.statement_view statement.now) < 2 ^ 64 }
    ensures node { IfOk result (λ r. views.statement_view r.0 ≡ elaborated.statement (state_of state.old) next (tree.statement_view statement.now)) }
    ensures next { IfOk result (λ r. r.1 ≡ next + count_of (tree.statement_view statement.now)) }
    ensures same { OnOk result (IsSame state.new state.old) }
{
    match statement {
        tree::Statement::Action(place, act) => {
            let node = acts(alloc, surroundings(state), *place, act)?;
            Ok((node, next))
        }
        tree::Statement::LogicalIf(place, e, _, act) => {
            let node = acts_if(alloc, surroundings(state), *place, e, act)?;
            Ok((node, next))
        }
        tree::Statement::If(list, other) => conditional(alloc, state, next, list, other),
        tree::Statement::Select(place, e, list) => {
            selection(alloc, state, next, *place, e, list)
        }
        tree::Statement::Do(place, control, body) => {
            repeats(alloc, state, next, *place, control, body)
        }
        tree::Statement::Associate(place, list, body) => {
            associates(alloc, state, next, *place, list, body)
        }
    }
}

/// An IF construct (8.1.2).
#[cycle(blocks)]
fn conditional(
    alloc: Global,
    state: &mut State<'_>,
    next: usize,
    list: &[(Place, Expression, Vec<tree::Statement>)],
    other: &Option<Vec<tree::Statement>>,
) -> Result<(Statement, usize), AllocError>
    requires settled { IsSettled (site_of state.old.site) }
    requires numbers { next + count_of (tree.branches (branches_view list.now) (alternative_view other.now)) < 2 ^ 64 }
    ensures node { IfOk result (λ r. views.statement_view r.0 ≡ elaborated.statement (state_of state.old) next (tree.branches (branches_view list.now) (alternative_view other.now))) }
    ensures next { IfOk result (λ r. r.1 ≡ next + count_of (tree.branches (branches_view list.now) (alternative_view other.now))) }
    ensures same { OnOk result (IsSame state.new state.old) }
{
    let (found, behind) = branches(alloc, state, next, list)?;
    let (otherwise, end) = alternative(alloc, state, behind, other)?;
    let node = branched(alloc, found, otherwise)?;
    Ok((node, end))
}

/// IF and each ELSE IF of an IF construct.
#[cycle(blocks)]
fn branches(
    alloc: Global,
    state: &mut State<'_>,
    mut next: usize,
    list: &[(Place, Expression, Vec<tree::Statement>)],
) -> Result<(Vec<Branch>, usize), AllocError>
    requires settled { IsSettled (site_of state.old.site) }
    requires numbers { next + count_of_branches (branches_view list.now) < 2 ^ 64 }
    ensures nodes { IfOk result (λ r. map branch_of r.0.items ≡ branches_at (state_of state.old) next list.now) }
    ensures next { IfOk result (λ r. r.1 ≡ next + count_of_branches (branches_view list.now)) }
    ensures same { OnOk result (IsSame state.new state.old) }
{
    let mut found = Vec::new(alloc);
    for (place, e, body) in list {
        let condition = expression(alloc, surroundings(state), e)?;
        match block(alloc, state, next, body) {
            Ok((nodes, behind)) => {
                found.push(Branch {
                    place: *place,
                    condition,
                    block: many(nodes),
                })?;
                next = behind;
            }
            Err(error) => {
                drop(condition);
                drop(found);
                return Err(error);
            }
        }
    }
    Ok((found, next))
}

/// ELSE of an IF construct, where it is written.
#[cycle(blocks)]
fn alternative(
    alloc: Global,
    state: &mut State<'_>,
    next: usize,
    other: &Option<Vec<tree::Statement>>,
) -> Result<(Statement, usize), AllocError>
    requires settled { IsSettled (site_of state.old.site) }
    requires numbers { next + count_of_other (alternative_view other.now) < 2 ^ 64 }
    ensures node { IfOk result (λ r. views.statement_view r.0 ≡ elaborated.alternative (state_of state.old) next (alternative_view other.now)) }
    ensures next { IfOk result (λ r. r.1 ≡ next + count_of_other (alternative_view other.now)) }
    ensures same { OnOk result (IsSame state.new state.old) }
{
    match other {
        Some(body) => {
            let (nodes, behind) = block(alloc, state, next, body)?;
            Ok((many(nodes), behind))
        }
        None => Ok((nothing_done(alloc), next)),
    }
}

/// A CASE construct (8.1.3).
#[cycle(blocks)]
fn selection(
    alloc: Global,
    state: &mut State<'_>,
    next: usize,
    place: Place,
    e: &Expression,
    list: &[(Place, tree::Selector, Vec<tree::Statement>)],
) -> Result<(Statement, usize), AllocError>
    requires settled { IsSettled (site_of state.old.site) }
    requires numbers { next + count_of (tree.selects place (expression_view e.now) (cases_view list.now)) < 2 ^ 64 }
    ensures node { IfOk result (λ r. views.statement_view r.0 ≡ elaborated.statement (state_of state.old) next (tree.selects place (expression_view e.now) (cases_view list.now))) }
    ensures next { IfOk result (λ r. r.1 ≡ next + count_of (tree.selects place (expression_view e.now) (cases_view list.now))) }
    ensures same { OnOk result (IsSame state.new state.old) }
{
    let value = expression(alloc, surroundings(state), e)?;
    match cases(alloc, state, next, list) {
        Ok((found, behind)) => {
            let node = select(alloc, place, value, found)?;
            Ok((node, behind))
        }
        Err(error) => {
            drop(value);
            Err(error)
        }
    }
}

/// The cases of a CASE construct, each with the next one where its values are not met, DEFAULT behind the last.
#[cycle(blocks)]
fn cases(
    alloc: Global,
    state: &mut State<'_>,
    mut next: usize,
    list: &[(Place, tree::Selector, Vec<tree::Statement>)],
) -> Result<(Statement, usize), AllocError>
    requires settled { IsSettled (site_of state.old.site) }
    requires numbers { next + count_of_cases (cases_view list.now) < 2 ^ 64 }
    ensures node { IfOk result (λ r. views.statement_view r.0 ≡ elaborated.cases (state_of state.old) next (cases_view list.now) actions.nothing_done) }
    ensures next { IfOk result (λ r. r.1 ≡ next + count_of_cases (cases_view list.now)) }
    ensures same { OnOk result (IsSame state.new state.old) }
{
    let mut found = Vec::new(alloc);
    let mut otherwise = nothing_done(alloc);
    for (_, selector, body) in list {
        match block(alloc, state, next, body) {
            Ok((nodes, behind)) => {
                let site = &state.site;
                otherwise = add_case(
                    alloc,
                    &site.known,
                    site.at,
                    &mut found,
                    selector,
                    many(nodes),
                    otherwise,
                )?;
                next = behind;
            }
            Err(error) => {
                drop(otherwise);
                drop(found);
                return Err(error);
            }
        }
    }
    let node = chosen(alloc, found, otherwise)?;
    Ok((node, next))
}

/// A DO construct (8.1.6).
#[cycle(blocks)]
fn repeats(
    alloc: Global,
    state: &mut State<'_>,
    next: usize,
    place: Place,
    control: &tree::Control,
    body: &[tree::Statement],
) -> Result<(Statement, usize), AllocError>
    requires settled { IsSettled (site_of state.old.site) }
    requires numbers { next + count_of (tree.repeats place (tree.control_view control.now) (tree.block_of (map tree.statement_view body.now))) < 2 ^ 64 }
    ensures node { IfOk result (λ r. views.statement_view r.0 ≡ elaborated.statement (state_of state.old) next (tree.repeats place (tree.control_view control.now) (tree.block_of (map tree.statement_view body.now)))) }
    ensures next { IfOk result (λ r. r.1 ≡ next + count_of (tree.repeats place (tree.control_view control.now) (tree.block_of (map tree.statement_view body.now)))) }
    ensures same { OnOk result (IsSame state.new state.old) }
{
    let (nodes, behind) = block(alloc, state, next, body)?;
    let inner = looped(alloc, surroundings(state), control, many(nodes))?;
    let node = at(alloc, place, true, inner)?;
    Ok((node, behind))
}

/// An ASSOCIATE construct (8.1.4).
#[cycle(blocks)]
fn associates(
    alloc: Global,
    state: &mut State<'_>,
    next: usize,
    place: Place,
    list: &[tree::Association],
    body: &[tree::Statement],
) -> Result<(Statement, usize), AllocError>
    requires settled { IsSettled (site_of state.old.site) }
    requires numbers { next + count_of (tree.associates place (map tree.association_view list.now) (tree.block_of (map tree.statement_view body.now))) < 2 ^ 64 }
    ensures node { IfOk result (λ r. views.statement_view r.0 ≡ elaborated.statement (state_of state.old) next (tree.associates place (map tree.association_view list.now) (tree.block_of (map tree.statement_view body.now)))) }
    ensures next { IfOk result (λ r. r.1 ≡ next + count_of (tree.associates place (map tree.association_view list.now) (tree.block_of (map tree.statement_view body.now)))) }
    ensures same { OnOk result (IsSame state.new state.old) }
{
    let selected = selectors(alloc, surroundings(state), list)?;
    let outside = enter(alloc, state, next, list)?;
    let (nodes, behind) = block(alloc, state, next + 1, body)?;
    leave(alloc, state, outside)?;
    let node = associate(alloc, place, selected, many(nodes))?;
    Ok((node, behind))
}
