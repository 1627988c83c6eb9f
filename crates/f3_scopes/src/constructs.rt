//! The outlines of ASSOCIATE constructs.

ghost use Rattle.std.specs.Prelude.{◌≡◌, ◌++◌, map, length, OnOk, IfOk};
ghost use Rattle.f3_tree.specs.Statements.{association_view, block_of, statement_view};
ghost use Rattle.f3_scopes.specs.Outlines.{own_view, scope_view};
ghost use Rattle.f3_scopes.specs.Scopes.{construct_name, association_own, scope_of_construct, constructs_in, constructs_in_block, constructs_in_branches, constructs_in_cases};
ghost use Rattle.f3_scopes.specs.Blocks.{branches_in, cases_in};

use crate::outline::{Declared, EntityKind, Outline, ScopeKind};
use crate::walk::plain;
use f3_tree::expression::Name;
use f3_tree::statement::{Association, Statement};
use std::alloc::{AllocError, Global};

/// What stands for the name of a construct in the scope of the name `around`.
fn construct_name(around: Name, list: &[Association]) -> Name
    ensures { result ≡ construct_name around (map association_view list.now) }
{
    match list {
        [first, ..] => first.name,
        [] => around,
    }
}

/// The associate names of a construct.
fn associate_names(alloc: Global, list: &[Association]) -> Result<Vec<Declared>, AllocError>
    ensures { IfOk result (λ v. map own_view v.items ≡ map association_own (map association_view list.now)) }
{
    let mut found = Vec::new(alloc);
    for association in list {
        found.push(plain(alloc, EntityKind::Variable, association.name))?;
    }
    Ok(found)
}

/// The outline of a construct that stands in the scope of the number `host` and the name `around`.
fn construct_scope(
    alloc: Global,
    host: usize,
    around: Name,
    list: &[Association],
) -> Result<Outline, AllocError>
    ensures { IfOk result (λ o. scope_view o ≡ scope_of_construct host around (map association_view list.now)) }
{
    Ok(Outline {
        kind: ScopeKind::Associate,
        name: construct_name(around, list),
        host: Some(host),
        uses: Vec::new(alloc),
        declared: associate_names(alloc, list)?,
        dummies: Vec::new(alloc),
        outcome: None,
        result: None,
        is_typed: false,
        accesses: Vec::new(alloc),
        given: Vec::new(alloc),
        access_attributes: Vec::new(alloc),
        protects: Vec::new(alloc),
        types: Vec::new(alloc),
        references: Vec::new(alloc),
    })
}

/// Adds the constructs of a statement that stands in the scope of the number `host` and the name `around`: itself, and
/// behind it those within it.
#[cycle(constructs)]
fn add_statement(
    alloc: Global,
    found: &mut Vec<Outline>,
    host: usize,
    around: Name,
    statement: &Statement,
) -> Result<(), AllocError>
    ensures { OnOk result (map scope_view found.new.items ≡ map scope_view found.old.items ++ constructs_in host around (length found.old.items) (statement_view statement.now)) }
{
    match statement {
        Statement::Action(_, _) => Ok(()),
        Statement::LogicalIf(_, _, _, _) => Ok(()),
        Statement::If(_, other) => {
            add_branches(alloc, found, host, around, statement)?;
            match other {
                Some(body) => add_block(alloc, found, host, around, body),
                None => Ok(()),
            }
        }
        Statement::Select(_, _, _) => add_cases(alloc, found, host, around, statement),
        Statement::Do(_, _, body) => add_block(alloc, found, host, around, body),
        Statement::Associate(_, list, body) => {
            let number = found.len();
            let scope = construct_scope(alloc, host, around, list)?;
            found.push(scope)?;
            add_block(alloc, found, number, construct_name(around, list), body)
        }
    }
}

/// Adds the constructs of a block.
#[cycle(constructs)]
pub fn add_block(
    alloc: Global,
    found: &mut Vec<Outline>,
    host: usize,
    around: Name,
    block: &[Statement],
) -> Result<(), AllocError>
    ensures { OnOk result (map scope_view found.new.items ≡ map scope_view found.old.items ++ constructs_in_block host around (length found.old.items) (block_of (map statement_view block.now))) }
{
    for statement in block {
        add_statement(alloc, found, host, around, statement)?;
    }
    Ok(())
}

/// Adds the constructs behind IF and each ELSE IF of an IF construct.
#[cycle(constructs)]
fn add_branches(
    alloc: Global,
    found: &mut Vec<Outline>,
    host: usize,
    around: Name,
    statement: &Statement,
) -> Result<(), AllocError>
    ensures { OnOk result (map scope_view found.new.items ≡ map scope_view found.old.items ++ constructs_in_branches host around (length found.old.items) (branches_in (statement_view statement.now))) }
{
    if let Statement::If(branches, _) = statement {
        for (_, _, body) in branches {
            add_block(alloc, found, host, around, body)?;
        }
    }
    Ok(())
}

/// Adds the constructs behind each CASE of a CASE construct.
#[cycle(constructs)]
fn add_cases(
    alloc: Global,
    found: &mut Vec<Outline>,
    host: usize,
    around: Name,
    statement: &Statement,
) -> Result<(), AllocError>
    ensures { OnOk result (map scope_view found.new.items ≡ map scope_view found.old.items ++ constructs_in_cases host around (length found.old.items) (cases_in (statement_view statement.now))) }
{
    if let Statement::Select(_, _, cases) = statement {
        for (_, _, body) in cases {
            add_block(alloc, found, host, around, body)?;
        }
    }
    Ok(())
}
