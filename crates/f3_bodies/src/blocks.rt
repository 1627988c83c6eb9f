//! Blocks: all statements in them, one after the other, constructs with theirs.

ghost use Rattle.std.specs.Prelude.{◌≡◌, ◌+◌, ◌<◌, ◌^◌, map, length, OnOk, IfOk};
ghost use Rattle.f3_tree.specs.Statements.{statement_view, block_of};
ghost use Rattle.f3_scopes.specs.Blocks.{branches_in, cases_in};
ghost use Rattle.f3_type_rules.specs.Associates.{constructs_of_block};
ghost use Rattle.f3_type_rules.specs.Bodies.{statement_breaks, block_breaks, branch_breaks, case_breaks};
ghost use Rattle.f3_typed_parts.specs.Noted.{noted};
ghost use Rattle.f3_sites.specs.Sites.{site_of};
ghost use Rattle.f3_associates.specs.Known.{IsSettled};
ghost use Rattle.f3_associates.specs.Standing.{room_of};
ghost use Rattle.f3_bodies.specs.Inner.Counts.{count_of, count_of_branches, count_of_cases};

use crate::loops::{begin_loop, end_loop};
use f3_acts::actions::act;
use f3_acts::conditions::condition;
use f3_acts::controls::control;
use f3_associates::entering::{enter, leave};
use f3_associates::selectors::selectors;
use f3_cases::select::select;
use f3_rules::breaks::Break;
use f3_sites::site::Site;
use f3_tree::statement::Statement;
use std::alloc::{AllocError, Global};

/// Notes the first break of phases 6 and 7 of a block, the first construct in which has the number `next`; answers the number of
/// the next construct behind it.
///
/// `AllocError` where memory runs out: then the site is of no use any more.
#[cycle(blocks)]
pub fn block(
    alloc: Global,
    site: &mut Site<'_>,
    first: &mut Option<Break>,
    mut next: usize,
    statements: &[Statement],
) -> Result<usize, AllocError>
    requires settled { IsSettled (site_of site.old) }
    requires numbers { next + length (constructs_of_block (block_of (map statement_view statements.now))) < 2 ^ 64 }
    ensures noted { OnOk result (first.new ≡ noted first.old (block_breaks (site_of site.old) next (block_of (map statement_view statements.now)))) }
    ensures next { IfOk result (λ n. n ≡ next + length (constructs_of_block (block_of (map statement_view statements.now)))) }
    ensures site { OnOk result (site_of site.new ≡ site_of site.old) }
    ensures room { OnOk result (room_of site.new ≡ room_of site.old) }
{
    for statement in statements {
        next = one(alloc, site, first, next, statement)?;
    }
    Ok(next)
}

/// Notes the first break of a statement, and of what it holds.
#[cycle(blocks)]
fn one(
    alloc: Global,
    site: &mut Site<'_>,
    first: &mut Option<Break>,
    next: usize,
    statement: &Statement,
) -> Result<usize, AllocError>
    requires settled { IsSettled (site_of site.old) }
    requires numbers { next + count_of (statement_view statement.now) < 2 ^ 64 }
    ensures noted { OnOk result (first.new ≡ noted first.old (statement_breaks (site_of site.old) next (statement_view statement.now))) }
    ensures next { IfOk result (λ n. n ≡ next + count_of (statement_view statement.now)) }
    ensures site { OnOk result (site_of site.new ≡ site_of site.old) }
    ensures room { OnOk result (room_of site.new ≡ room_of site.old) }
{
    match statement {
        Statement::Action(place, action) => {
            act(alloc, site, first, *place, action)?;
            Ok(next)
        }
        Statement::LogicalIf(_, e, place, action) => {
            condition(alloc, &site.known, site.at, first, e)?;
            act(alloc, site, first, *place, action)?;
            Ok(next)
        }
        Statement::If(_, other) => {
            let next = branches(alloc, site, first, next, statement)?;
            match other {
                Some(body) => block(alloc, site, first, next, body),
                None => Ok(next),
            }
        }
        Statement::Select(_, e, list) => {
            select(alloc, &site.known, site.at, first, e, list)?;
            cases(alloc, site, first, next, statement)
        }
        Statement::Do(_, by, body) => {
            let variable = control(alloc, site, first, by)?;
            begin_loop(site, variable)?;
            let behind = block(alloc, site, first, next, body)?;
            end_loop(site, variable);
            Ok(behind)
        }
        Statement::Associate(_, list, body) => {
            let names = selectors(alloc, site, first, next, list)?;
            let outside = enter(alloc, site, next, &names)?;
            let behind = block(alloc, site, first, next + 1, body)?;
            leave(alloc, site, outside)?;
            Ok(behind)
        }
    }
}

/// Notes the first break of the conditions and the blocks of an IF construct, but of its ELSE.
#[cycle(blocks)]
#[tactic(auto, using(f3_typed_parts::proofs::Noting::noted_none))]
fn branches(
    alloc: Global,
    site: &mut Site<'_>,
    first: &mut Option<Break>,
    mut next: usize,
    statement: &Statement,
) -> Result<usize, AllocError>
    requires settled { IsSettled (site_of site.old) }
    requires numbers { next + count_of_branches (branches_in (statement_view statement.now)) < 2 ^ 64 }
    ensures noted { OnOk result (first.new ≡ noted first.old (branch_breaks (site_of site.old) next (branches_in (statement_view statement.now)))) }
    ensures next { IfOk result (λ n. n ≡ next + count_of_branches (branches_in (statement_view statement.now))) }
    ensures site { OnOk result (site_of site.new ≡ site_of site.old) }
    ensures room { OnOk result (room_of site.new ≡ room_of site.old) }
{
    match statement {
        Statement::If(branches, _) => {
            for (_, e, body) in branches {
                condition(alloc, &site.known, site.at, first, e)?;
                next = block(alloc, site, first, next, body)?;
            }
            Ok(next)
        }
        Statement::Action(_, _) => Ok(next),
        Statement::LogicalIf(_, _, _, _) => Ok(next),
        Statement::Select(_, _, _) => Ok(next),
        Statement::Do(_, _, _) => Ok(next),
        Statement::Associate(_, _, _) => Ok(next),
    }
}

/// Notes the first break of the blocks of a CASE construct.
#[cycle(blocks)]
#[tactic(auto, using(f3_typed_parts::proofs::Noting::noted_none))]
fn cases(
    alloc: Global,
    site: &mut Site<'_>,
    first: &mut Option<Break>,
    mut next: usize,
    statement: &Statement,
) -> Result<usize, AllocError>
    requires settled { IsSettled (site_of site.old) }
    requires numbers { next + count_of_cases (cases_in (statement_view statement.now)) < 2 ^ 64 }
    ensures noted { OnOk result (first.new ≡ noted first.old (case_breaks (site_of site.old) next (cases_in (statement_view statement.now)))) }
    ensures next { IfOk result (λ n. n ≡ next + count_of_cases (cases_in (statement_view statement.now))) }
    ensures site { OnOk result (site_of site.new ≡ site_of site.old) }
    ensures room { OnOk result (room_of site.new ≡ room_of site.old) }
{
    match statement {
        Statement::Select(_, _, cases) => {
            for (_, _, body) in cases {
                next = block(alloc, site, first, next, body)?;
            }
            Ok(next)
        }
        Statement::Action(_, _) => Ok(next),
        Statement::LogicalIf(_, _, _, _) => Ok(next),
        Statement::If(_, _) => Ok(next),
        Statement::Do(_, _, _) => Ok(next),
        Statement::Associate(_, _, _) => Ok(next),
    }
}
