//! The syntax tree of sources.

ghost use Rattle.std.specs.Prelude.{◌≡◌, MatchOption};
ghost use Rattle.f3_rules.specs.declared.breaks.Break.{Break};
ghost use Rattle.f3_text.specs.Reader.{bytes_of, Tells};
ghost use Rattle.f3_words.specs.Lines.{line_view, seen_of};
ghost use Rattle.f3_units.specs.Machine.{builder_view};
ghost use Rattle.f3_parse.specs.Spells.{end_place, ends_of, last_end, Parses};
ghost use Rattle.f3_parse.specs.Inner.Steps.{GoesOnAt, LeavesOpen, Goes, EndsText, Finishes};

use crate::advance::{LineFault, advance, first_place};
use f3_places::source::{Place, Source};
use f3_rules::breaks::Break;
use f3_rules::refusal::Refusal;
use f3_rules::rule::Rule;
use f3_text::cut::source_end;
use f3_text::reader::Statements;
use f3_text::statement::TextFault;
use f3_tree::program::Program;
use f3_units::builder::Builder;
use f3_words::items::line;
use f3_words::line::{Line, Tables, broken};
use f3_words::names::Names;
use std::alloc::Global;

/// The end of a source of these bytes; of one past the size limit, where it begins.
fn end_place(file: usize, bytes: &[u8]) -> Place
    ensures { result ≡ end_place file bytes.now }
{
    if bytes.len() > Statements::LIMIT {
        Place {
            file,
            line: 1,
            column: 1,
        }
    } else {
        source_end(file, bytes)
    }
}

/// The end of a source by its number.
fn end_of_source(sources: &[Source], file: usize) -> Place
    ensures { result ≡ ends_of (bytes_of sources.now) file }
{
    match sources.get(file.saturating_sub(1)) {
        Some(source) => end_place(file, &source.bytes),
        None => end_place(file, &[]),
    }
}

/// The end of the last source.
fn last_end(sources: &[Source]) -> Place
    ensures { result ≡ last_end (bytes_of sources.now) }
{
    if sources.is_empty() {
        Place {
            file: 1,
            line: 1,
            column: 1,
        }
    } else {
        end_of_source(sources, sources.len())
    }
}

/// The refusal that tells of a break of the first phase.
fn refusal(alloc: Global, found: Break) -> Refusal
    ensures { Tells result found }
{
    Refusal {
        place: found.place,
        rule: found.rule,
        name: String::new(alloc),
    }
}

/// The break of S7 where a unit is open in another source than the one of that number.
fn left_open(sources: &[Source], builder: &Builder, file: usize) -> Option<Break>
    ensures { MatchOption result (GoesOnAt (builder_view builder.now) file) (LeavesOpen (ends_of (bytes_of sources.now)) (builder_view builder.now) file) }
{
    match &builder.unit {
        None => None,
        Some(unit) => {
            if unit.file == file {
                None
            } else {
                Some(broken(Rule::S7, end_of_source(sources, unit.file)))
            }
        }
    }
}

/// Goes on with a statement.
fn go_on(
    alloc: Global,
    sources: &[Source],
    builder: &mut Builder,
    line: Line,
) -> Result<(), TextFault>
    ensures { Goes (ends_of (bytes_of sources.now)) result (builder_view builder.old) (builder_view builder.new) (line_view line) }
{
    let file = first_place(&line.items).file;
    match left_open(sources, builder, file) {
        Some(found) => Err(TextFault::Refused(refusal(alloc, found))),
        None => match advance(alloc, builder, line) {
            Ok(_) => Ok(()),
            Err(LineFault::Memory) => Err(TextFault::Memory),
            Err(LineFault::Broken(found)) => Err(TextFault::Refused(refusal(alloc, found))),
        },
    }
}

/// The first refusal where the text has a fault: a unit may be open in a source before it.
fn text_refusal(alloc: Global, sources: &[Source], builder: &Builder, found: Refusal) -> Refusal
    ensures { (t : Break) → Tells found t → EndsText (ends_of (bytes_of sources.now)) result (builder_view builder.now) t }
{
    match left_open(sources, builder, found.place.file) {
        Some(open) => refusal(alloc, open),
        None => found,
    }
}

/// The program, where all statements were read.
fn finish(
    alloc: Global,
    sources: &[Source],
    tables: Tables,
    builder: Builder,
) -> Result<Program, TextFault>
    ensures { Finishes (bytes_of sources.now) result (builder_view builder) (seen_of tables) }
{
    let Builder { units, unit } = builder;
    match unit {
        Some(unit) => {
            let found = broken(Rule::S7, end_of_source(sources, unit.file));
            Err(TextFault::Refused(refusal(alloc, found)))
        }
        None => {
            let Tables { names, texts, .. } = tables;
            let Names { set, .. } = names;
            Ok(Program {
                names: set,
                texts,
                units,
                end: last_end(sources),
            })
        }
    }
}

/// The syntax tree that the sources spell. Refused, of their first break of the first phase: S1 and S2 of the text, S3
/// and S4 of tokens, S5 of a statement without form, S6 of one with which units cannot go on, S7 of a source that ends
/// inside a unit, S8 of sizes and nesting (own rules, over ISO/IEC 1539-1:2004, clauses 2 to 12). Memory where a growth
/// of the host's memory was refused.
pub fn parse(alloc: Global, sources: &[Source]) -> Result<Program, TextFault>
    ensures { Parses result sources.now }
{
    let mut reader = Statements::new(sources);
    let mut tables = Tables::new(alloc);
    let mut builder = Builder::new(alloc);
    loop {
        match reader.next(alloc) {
            Err(TextFault::Memory) => return Err(TextFault::Memory),
            Err(TextFault::Refused(found)) => {
                let refusal = text_refusal(alloc, sources, &builder, found);
                return Err(TextFault::Refused(refusal));
            }
            Ok(None) => return finish(alloc, sources, tables, builder),
            Ok(Some(statement)) => match line(alloc, &mut tables, &statement) {
                Err(_) => return Err(TextFault::Memory),
                Ok(line) => match go_on(alloc, sources, &mut builder, line) {
                    Ok(_) => {}
                    Err(fault) => return Err(fault),
                },
            },
        }
    }
}
