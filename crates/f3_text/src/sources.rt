//! Steps from statement to statement, and from source to source.

ghost use Rattle.std.specs.Prelude.{◌≡◌, ◌+◌, ◌<◌, ◌≤◌, ◌^◌, ◌==◌, ◌&&◌, length};
ghost use Rattle.f3_text.specs.declared.letter.Quoting.TheVariants.{Outside};
ghost use Rattle.f3_text.specs.Lines.{all_blank, line, text};
ghost use Rattle.f3_text.specs.Reader.{ahead};
ghost use Rattle.f3_text.specs.Inner.Sources.{FindsStart, FindsNext, Enters};

use crate::cursor::Cursor;
use crate::letter::Quoting;
use crate::lines::{TextLine, only_blanks, text_line};
use crate::reader::Statements;
use crate::reading::{refuse, statement};
use crate::statement::{RawStatement, TextFault};
use f3_places::source::{Place, Source};
use f3_rules::rule::Rule;
use std::alloc::Global;

/// Whether an `&` is the only letter of a line but blanks.
fn is_lone(found: TextLine) -> bool
    ensures { result ≡ ((found.entry.first.byte == 38) && all_blank (text Outside (line (ahead found.entry.behind)))) }
{
    found.first.byte == b'&' && only_blanks(Quoting::Outside, found.behind)
}

/// Where the next statement of a source begins: here, or at the next line that is no comment line.
fn start_of<'a>(alloc: Global, cursor: Cursor<'a>) -> Result<Option<Cursor<'a>>, TextFault>
    ensures { FindsStart result cursor.entry }
{
    if cursor.column != 1 {
        return Ok(Some(cursor));
    }
    let Some(found) = text_line(cursor) else {
        return Ok(None);
    };
    if is_lone(found) {
        return Err(refuse(alloc, Rule::S2, found.first.place));
    }
    Ok(Some(found.start))
}

/// The next statement of a source, and the place behind it.
pub(crate) fn next_statement<'a>(
    alloc: Global,
    cursor: Cursor<'a>,
) -> Result<Option<(RawStatement, Cursor<'a>)>, TextFault>
    ensures { FindsNext result cursor.entry }
{
    let mut at = cursor;
    while !at.rest.is_empty() {
        let Some(start) = start_of(alloc, at)? else {
            return Ok(None);
        };
        let (found, behind) = statement(alloc, start)?;
        if !found.bytes.is_empty() {
            return Ok(Some((found, behind)));
        }
        at = behind;
    }
    Ok(None)
}

/// The reader of the next source, where this many sources are before it and so many bytes may come.
pub(crate) fn enter<'a>(
    alloc: Global,
    before: usize,
    room: usize,
    sources: &'a [Source],
) -> Result<Option<Statements<'a>>, TextFault>
    requires files { before + length sources.now < 2 ^ 64 }
    requires limit { room ≤ 16777216 }
    ensures { Enters result before room sources.now }
{
    let Some((source, others)) = sources.split_first() else {
        return Ok(None);
    };
    let file = before + 1;
    let rest = source.bytes.as_slice();
    if room < rest.len() {
        return Err(refuse(
            alloc,
            Rule::S8,
            Place {
                file,
                line: 1,
                column: 1,
            },
        ));
    }
    let cursor = Cursor {
        file,
        line: 1,
        column: 1,
        rest,
    };
    Ok(Some(Statements {
        sources: others,
        cursor,
        room: room - rest.len(),
    }))
}
