//! Blocks and units that take the statements of a text one by one.

use crate::programs::units_text;
use f3_blocks::builder::BlockBuilder;
use f3_blocks::error::StepError;
use f3_form::form::Form;
use f3_forms::statements::statement;
use f3_pass_texts::sources::sources;
use f3_places::source::Place;
use f3_text::cut::statements;
use f3_text::statement::RawStatement;
use f3_units::builder::Builder;
use f3_words::error::ReadError;
use f3_words::items::line;
use f3_words::line::Tables;
use std::alloc::{AllocError, Global};

/// The form of a statement.
fn form_of(alloc: Global, tables: &mut Tables, raw: &RawStatement) -> Result<Form, ReadError> {
    let line = line(alloc, tables, raw)?;
    let form = statement(alloc, &line.items);
    drop(line);
    form
}

/// The first byte of a statement.
fn place_of(raw: &RawStatement) -> Place {
    let nowhere = Place {
        file: 0,
        line: 0,
        column: 0,
    };
    raw.places.first().map_or(nowhere, |place| *place)
}

/// Has a block of a program take statements.
fn fill(
    alloc: Global,
    tables: &mut Tables,
    block: &mut BlockBuilder,
    statements: &[RawStatement],
) -> Result<(), StepError> {
    for raw in statements {
        match form_of(alloc, tables, raw) {
            Ok(form) => block.step(alloc, false, place_of(raw), form)?,
            Err(_) => return Err(StepError::Memory),
        }
    }
    Ok(())
}

/// Has units take statements.
fn build(
    alloc: Global,
    tables: &mut Tables,
    units: &mut Builder,
    statements: &[RawStatement],
) -> Result<(), StepError> {
    for raw in statements {
        match form_of(alloc, tables, raw) {
            Ok(form) => units.step(alloc, place_of(raw), form)?,
            Err(_) => return Err(StepError::Memory),
        }
    }
    Ok(())
}

/// How many constructs are open and how many statements stand behind them, or why the block does not go on.
fn block_text(
    alloc: Global,
    block: &BlockBuilder,
    filled: Result<(), StepError>,
) -> Result<String, AllocError> {
    let open = block.constructs.len();
    let statements = block.body.len();
    match filled {
        Ok(()) => format!(in alloc; "{open} open, {statements} statements"),
        Err(StepError::Memory) => Err(AllocError),
        Err(error) => format!(in alloc; "{error:?}"),
    }
}

fn filled(alloc: Global, statements: &[RawStatement]) -> Result<String, AllocError> {
    let mut tables = Tables::new(alloc);
    let mut block = BlockBuilder::new(alloc);
    let filled = fill(alloc, &mut tables, &mut block, statements);
    let text = block_text(alloc, &block, filled);
    drop(block);
    drop(tables);
    text
}

/// The units, or why they do not go on.
fn built_text(
    alloc: Global,
    units: &Builder,
    built: Result<(), StepError>,
) -> Result<String, AllocError> {
    match built {
        Ok(()) => units_text(alloc, &units.units),
        Err(StepError::Memory) => Err(AllocError),
        Err(error) => format!(in alloc; "{error:?}"),
    }
}

fn built(alloc: Global, statements: &[RawStatement]) -> Result<String, AllocError> {
    let mut tables = Tables::new(alloc);
    let mut units = Builder::new(alloc);
    let built = build(alloc, &mut tables, &mut units, statements);
    let text = built_text(alloc, &units, built);
    drop(units);
    drop(tables);
    text
}

/// What comes of the statements of a text.
pub fn stepped(alloc: Global, question: &str, text: &str) -> Result<String, AllocError> {
    let sources = sources(alloc, text)?;
    let cut = statements(alloc, &sources)?;
    let text = match question {
        "block" => filled(alloc, &cut.statements),
        _ => built(alloc, &cut.statements),
    };
    drop(cut);
    drop(sources);
    text
}
