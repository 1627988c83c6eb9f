//! Steps along the bytes and lines of a source.

ghost use Rattle.std.specs.Prelude.{◌≡◌, ◌≢◌, ◌<◌, ◌≤◌, [], length};
ghost use Rattle.f3_text.specs.Lines.{is_line_feed, ends_line, line, lines_of, later_lines, all_blank, text};
ghost use Rattle.f3_text.specs.Statements.{texts, all_pieces, parts};
ghost use Rattle.f3_text.specs.Reader.{ahead, parts_ahead};
ghost use Rattle.f3_text.specs.Inner.Steps.{ends_text, Takes, FindsFirst, FindsLine};

use crate::cursor::Cursor;
use crate::letter::{Letter, Quoting, after, is_blank, is_open};
use f3_places::source::Place;

/// A line that is no comment line.
#[derive(Clone, Copy)]
pub struct TextLine<'a> {
    /// Where it begins.
    pub start: Cursor<'a>,
    /// Its first letter that is no blank.
    pub first: Letter,
    /// The place behind that letter.
    pub behind: Cursor<'a>,
}

/// The next byte with its place, and the cursor behind it; None at the end of the source.
pub(crate) fn take<'a>(cursor: Cursor<'a>) -> Option<(Letter, Cursor<'a>)>
    ensures { Takes cursor.entry result }
{
    let Some((byte, rest)) = cursor.rest.split_first() else {
        return None;
    };
    let place = Place {
        file: cursor.file,
        line: cursor.line,
        column: cursor.column,
    };
    let letter = Letter { byte: *byte, place };
    if *byte == b'\n' {
        return Some((
            letter,
            Cursor {
                file: cursor.file,
                line: cursor.line + 1,
                column: 1,
                rest,
            },
        ));
    }
    Some((
        letter,
        Cursor {
            file: cursor.file,
            line: cursor.line,
            column: cursor.column + 1,
            rest,
        },
    ))
}

/// Whether a line feed stands at a cursor.
fn is_line_feed(cursor: Cursor) -> bool
    ensures { result ≡ is_line_feed (ahead cursor.entry) }
{
    match take(cursor) {
        Some((letter, _)) => letter.byte == b'\n',
        None => false,
    }
}

/// Whether a letter, with these behind it, ends its line.
#[tactic(auto, unfolding(crate::specs::Lines::ends_line))]
fn ends_line(letter: Letter, behind: Cursor) -> bool
    ensures { result ≡ ends_line letter (ahead behind.entry) }
{
    letter.byte == b'\n' || letter.byte == b'\r' && is_line_feed(behind)
}

/// Whether a letter, with these behind it, ends the text of its line: the line ends there, or a comment begins.
#[tactic(auto, unfolding(crate::specs::Inner::Steps::ends_text))]
pub(crate) fn ends_text(quoting: Quoting, letter: Letter, behind: Cursor) -> bool
    ensures { result ≡ ends_text quoting letter (ahead behind.entry) }
{
    ends_line(letter, behind) || !is_open(quoting) && letter.byte == b'!'
}

/// The beginning of the line below, or the end of the source.
pub(crate) fn below<'a>(cursor: Cursor<'a>) -> Cursor<'a>
    ensures lines { later_lines (ahead cursor.entry) ≡ lines_of (ahead result) }
    ensures parts { parts_ahead result ≡ parts (all_pieces (texts (lines_of (ahead result)))) }
    ensures file { result.file ≡ cursor.entry.file }
    ensures within { length (ahead result) ≤ length (ahead cursor.entry) }
    ensures shorter { ahead cursor.entry ≢ [] → length (ahead result) < length (ahead cursor.entry) }
{
    let mut at = cursor;
    while let Some((letter, behind)) = take(at) {
        if letter.byte == b'\n' {
            return behind;
        }
        at = behind;
    }
    at
}

/// The first letter of a line that is no blank, and the place behind it; None for a comment line.
fn first_letter<'a>(start: Cursor<'a>) -> Option<(Letter, Cursor<'a>)>
    ensures { FindsFirst start.entry result }
{
    let mut at = start;
    while let Some((letter, behind)) = take(at) {
        if ends_text(Quoting::Outside, letter, behind) {
            return None;
        }
        if !is_blank(letter.byte) {
            return Some((letter, behind));
        }
        at = behind;
    }
    None
}

/// The first line from here on that is no comment line.
pub(crate) fn text_line<'a>(cursor: Cursor<'a>) -> Option<TextLine<'a>>
    ensures { FindsLine cursor.entry result }
{
    let mut start = cursor;
    while !start.rest.is_empty() {
        if let Some((first, behind)) = first_letter(start) {
            return Some(TextLine {
                start,
                first,
                behind,
            });
        }
        start = below(start);
    }
    None
}

/// Whether nothing but blanks, and a comment where no constant is open, stands on the rest of a line.
pub(crate) fn only_blanks(quoting: Quoting, cursor: Cursor) -> bool
    ensures { result ≡ all_blank (text quoting (line (ahead cursor.entry))) }
{
    let mut at = cursor;
    let mut within = quoting;
    while let Some((letter, behind)) = take(at) {
        if ends_text(within, letter, behind) {
            return true;
        }
        if !is_blank(letter.byte) {
            return false;
        }
        within = after(within, letter);
        at = behind;
    }
    true
}
