//! The ASSOCIATE constructs of blocks, each by the number of its names (8.1.4).

ghost use Rattle.std.specs.Prelude.{◌≡◌, ◌++◌, map, length, OnOk, IfOk};
ghost use Rattle.f3_tree.specs.Statements.{block_of, statement_view};
ghost use Rattle.f3_type_rules.specs.Associates.{constructs_of, constructs_of_block, constructs_of_branches, constructs_of_cases};
ghost use Rattle.f3_scopes.specs.Blocks.{branches_in, cases_in};
ghost use Rattle.f3_natures.specs.Constructs.{ConstructsAreAsMany};

use f3_tree::statement::Statement;
use std::alloc::{AllocError, Global};

#[cycle(constructs)]
fn add_statement(found: &mut Vec<usize>, statement: &Statement) -> Result<(), AllocError>
    ensures { OnOk result (found.new.items ≡ found.old.items ++ map length (constructs_of (statement_view statement.now))) }
{
    match statement {
        Statement::Action(_, _) => Ok(()),
        Statement::LogicalIf(_, _, _, _) => Ok(()),
        Statement::If(_, other) => {
            add_branches(found, statement)?;
            match other {
                Some(body) => add_block(found, body),
                None => Ok(()),
            }
        }
        Statement::Select(_, _, _) => add_cases(found, statement),
        Statement::Do(_, _, body) => add_block(found, body),
        Statement::Associate(_, list, body) => {
            found.push(list.len())?;
            add_block(found, body)
        }
    }
}

#[cycle(constructs)]
fn add_block(found: &mut Vec<usize>, block: &[Statement]) -> Result<(), AllocError>
    ensures { OnOk result (found.new.items ≡ found.old.items ++ map length (constructs_of_block (block_of (map statement_view block.now)))) }
{
    for statement in block {
        add_statement(found, statement)?;
    }
    Ok(())
}

/// Adds those behind IF and each ELSE IF of an IF construct.
#[cycle(constructs)]
fn add_branches(found: &mut Vec<usize>, statement: &Statement) -> Result<(), AllocError>
    ensures { OnOk result (found.new.items ≡ found.old.items ++ map length (constructs_of_branches (branches_in (statement_view statement.now)))) }
{
    if let Statement::If(branches, _) = statement {
        for (_, _, body) in branches {
            add_block(found, body)?;
        }
    }
    Ok(())
}

/// Adds those behind each CASE of a CASE construct.
#[cycle(constructs)]
fn add_cases(found: &mut Vec<usize>, statement: &Statement) -> Result<(), AllocError>
    ensures { OnOk result (found.new.items ≡ found.old.items ++ map length (constructs_of_cases (cases_in (statement_view statement.now)))) }
{
    if let Statement::Select(_, _, cases) = statement {
        for (_, _, body) in cases {
            add_block(found, body)?;
        }
    }
    Ok(())
}

/// The constructs of a block in the order of their scopes, each by the number of its associate names.
pub fn constructs(alloc: Global, block: &[Statement]) -> Result<Vec<usize>, AllocError>
    ensures { IfOk result (λ v. v.items ≡ map length (constructs_of_block (block_of (map statement_view block.now)))) }
{
    let mut found = Vec::new(alloc);
    add_block(&mut found, block)?;
    Ok(found)
}

/// A block has as many constructs as it makes scopes.
pub fn constructs_are_as_many()
    ensures { ConstructsAreAsMany }
{}
