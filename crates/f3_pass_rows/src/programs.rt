//! What is made of whole sources.

use f3_graph::{CheckFault, order, refusal_of};
use f3_name_table::name_table;
use f3_names::names;
use f3_names::table::Names;
use f3_parse::parser::parse;
use f3_pass_texts::names::{names_text, order_text, scopes_text};
use f3_pass_texts::sources::sources;
use f3_places::source::{Place, Source};
use f3_rules::breaks::Break;
use f3_rules::refusal::{Refusal, render};
use f3_rules::rule::Rule;
use f3_scope_rules::first_scope_break;
use f3_scopes::scopes::outlines;
use f3_tree::program::{Program, Unit};
use std::alloc::{AllocError, Global};

/// The kind of each unit, its procedures by their number, and where it ends.
pub fn units_text(alloc: Global, units: &[Unit]) -> Result<String, AllocError> {
    let mut text = String::new(alloc);
    for unit in units {
        let kind = unit.kind;
        let procedures = unit.procedures.len();
        let end = unit.end;
        writeln!(
            text,
            "{kind:?} of {procedures} procedures ends at {}:{}",
            end.line, end.column
        )?;
    }
    Ok(text)
}

/// The units, the lengths of the character constants, how many names there are, and where the sources end.
fn program_text(alloc: Global, program: &Program) -> Result<String, AllocError> {
    let mut text = units_text(alloc, &program.units)?;
    for constant in &program.texts {
        writeln!(text, "constant of {} bytes", constant.len())?;
    }
    let names = program.names.len();
    let end = program.end;
    write!(text, "{names} names, end at {}:{}", end.line, end.column)?;
    Ok(text)
}

fn ordered(alloc: Global, program: &Program) -> Result<String, CheckFault> {
    let order = order(alloc, program)?;
    let text = order_text(alloc, &order);
    drop(order);
    Ok(text?)
}

fn outlined(alloc: Global, program: &Program) -> Result<String, CheckFault> {
    let outlines = outlines(alloc, program)?;
    let text = scopes_text(alloc, program, &outlines);
    drop(outlines);
    Ok(text?)
}

fn first_break(alloc: Global, program: &Program) -> Result<Option<Break>, AllocError> {
    let outlines = outlines(alloc, program)?;
    let first = first_scope_break(alloc, &outlines);
    drop(outlines);
    first
}

/// `none` where no rule on what a scope declares is broken.
fn ruled(alloc: Global, program: &Program) -> Result<String, CheckFault> {
    match first_break(alloc, program)? {
        Some(found) => {
            let refusal = refusal_of(alloc, &program.names, found)?;
            Err(CheckFault::Refused(refusal))
        }
        None => Ok(String::from_str(alloc, "none")?),
    }
}

fn names_of(alloc: Global, program: &Program) -> Result<Names, CheckFault> {
    let order = order(alloc, program)?;
    let names = names(alloc, program, &order);
    drop(order);
    names
}

fn named(alloc: Global, program: &Program) -> Result<String, CheckFault> {
    let names = names_of(alloc, program)?;
    let text = names_text(alloc, program, &names);
    drop(names);
    Ok(text?)
}

/// What a pass makes of a program.
fn passed(alloc: Global, question: &str, program: &Program) -> Result<String, CheckFault> {
    match question {
        "parse" => Ok(String::from_str(alloc, "parsed")?),
        "program" => Ok(program_text(alloc, program)?),
        "order" => ordered(alloc, program),
        "scopes" => outlined(alloc, program),
        "breaks" => ruled(alloc, program),
        "names" => named(alloc, program),
        _ => Ok(String::from_str(alloc, "no question")?),
    }
}

/// What a pass makes of the program of these sources.
fn pass(alloc: Global, question: &str, sources: &[Source]) -> Result<String, CheckFault> {
    match parse(alloc, sources) {
        Ok(program) => {
            let text = passed(alloc, question, &program);
            drop(program);
            text
        }
        Err(fault) => Err(CheckFault::from(fault)),
    }
}

/// An answer, or the line of a refusal.
fn told(
    alloc: Global,
    sources: &[Source],
    asked: Result<String, CheckFault>,
) -> Result<String, AllocError> {
    match asked {
        Ok(text) => Ok(text),
        Err(CheckFault::Refused(refusal)) => render(alloc, sources, &refusal),
        Err(CheckFault::Memory) => Err(AllocError),
    }
}

/// What is answered on the sources of a text.
pub fn of_sources(alloc: Global, question: &str, text: &str) -> Result<String, AllocError> {
    let sources = sources(alloc, text)?;
    let asked = match question {
        "table" => name_table(alloc, &sources),
        _ => pass(alloc, question, &sources),
    };
    let answer = told(alloc, &sources, asked);
    drop(sources);
    answer
}

/// How many fronts of a text are parsed, and what is made of the whole.
pub fn fronts(alloc: Global, text: &str) -> Result<String, AllocError> {
    let mut parsed = 0usize;
    let bytes = text.as_bytes();
    for length in 0..bytes.len() {
        let front = str::from_utf8(&bytes[..length]).unwrap_or("");
        if of_sources(alloc, "parse", front)?.as_str() == "parsed" {
            parsed = parsed.saturating_add(1);
        }
    }
    let whole = of_sources(alloc, "parse", text)?;
    format!(in alloc; "{parsed} fronts, and the whole: {whole}")
}

/// The line of a refusal in the first source of a text, at line 2 and column 19, with a name, or where the text is empty, of
/// one at the beginning of a source that is not there, without a name.
pub fn refusal_line(alloc: Global, text: &str) -> Result<String, AllocError> {
    let sources = sources(alloc, text)?;
    let name = String::from_str(alloc, text)?;
    let refusal = if text.is_empty() {
        Refusal {
            place: Place {
                file: 2,
                line: 1,
                column: 1,
            },
            rule: Rule::U4,
            name,
        }
    } else {
        Refusal {
            place: Place {
                file: 1,
                line: 2,
                column: 19,
            },
            rule: Rule::D1,
            name,
        }
    };
    let line = render(alloc, &sources, &refusal);
    drop(refusal);
    drop(sources);
    line
}
