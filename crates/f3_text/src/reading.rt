//! Statements read from the bytes of a source.

ghost use Rattle.std.specs.Prelude.{◌≡◌, ◌≤◌, ◌==◌, ◌&&◌, ◌+◌, ◌<◌, ◌^◌, ◌++◌, [], ◌∷◌, length, true, false, IfOk, OnOk};
ghost use Rattle.f3_text.specs.declared.letter.Quoting.TheVariants.{Outside};
ghost use Rattle.f3_rules.specs.declared.rule.Rule.TheVariants.{S2};
ghost use Rattle.f3_text.specs.Lines.{all_blank, line, text, after};
ghost use Rattle.f3_text.specs.Statements.{broken, depth_after, break_at, join_blank};
ghost use Rattle.f3_text.specs.Inner.Steps.{ends_text};
ghost use Rattle.f3_text.specs.Reader.{ahead, spelled_of};
ghost use Rattle.f3_text.specs.Inner.Reading.{added, going, none, unfinished_place, Paired, Refuses, Deepens, IsPlain, ArePlain, places_from, GoesOn, Joins, Steps, Reads, Shortens};

use crate::cursor::Cursor;
use crate::letter::{
    Letter, Quoting, after, closes, is_allowed, is_blank, is_open, is_quote, opens, separates,
};
use crate::lines::{below, ends_text, only_blanks, take, text_line};
use crate::mode::{Mode, Step};
use crate::statement::{RawStatement, TextFault};
use f3_places::source::Place;
use f3_rules::refusal::Refusal;
use f3_rules::rule::Rule;
use std::alloc::{AllocError, Global};

/// How deep parentheses and brackets may nest.
const DEEPEST: u32 = 64;

/// For how many bytes of a statement there is room at first.
const ROOM: usize = 64;

/// How the first letter of a statement stands.
fn outside() -> Mode
    ensures quoting { result.quoting ≡ Outside }
    ensures depth { result.depth ≡ 0 }
{
    Mode {
        quoting: Quoting::Outside,
        depth: 0,
    }
}

/// The rule that a byte outside character constants breaks, where so many parentheses are open.
#[tactic(auto, unfolding(crate::specs::Statements::broken))]
fn broken(depth: u32, byte: u8) -> Option<Rule>
    ensures { result ≡ broken depth byte }
{
    if byte == b'&' {
        Some(Rule::S2)
    } else if !is_allowed(byte) {
        Some(Rule::S1)
    } else if opens(byte) && depth == DEEPEST {
        Some(Rule::S8)
    } else {
        None
    }
}

/// How many parentheses are open behind a byte outside character constants.
#[tactic(auto, unfolding(crate::specs::Statements::depth_after))]
fn depth_after(depth: u32, byte: u8) -> u32
    requires { depth ≤ 64 }
    ensures { result ≡ depth_after depth byte }
{
    if opens(byte) {
        depth + 1
    } else if closes(byte) {
        depth.saturating_sub(1)
    } else {
        depth
    }
}

/// The refusal for a rule broken at a place.
pub(crate) fn refuse(alloc: Global, rule: Rule, place: Place) -> TextFault
    ensures { Refuses result (break_at rule place) }
{
    TextFault::Refused(Refusal {
        place,
        rule,
        name: String::new(alloc),
    })
}

/// The refusal of an `&` behind which nothing goes on: it stands at the constant that is open, or else at the `&`.
fn refuse_unfinished(alloc: Global, quoting: Quoting, ampersand: Letter) -> TextFault
    ensures { Refuses result (break_at S2 (unfinished_place quoting ampersand)) }
{
    match quoting {
        Quoting::Inside(quote) => refuse(alloc, Rule::S2, quote.place),
        _ => refuse(alloc, Rule::S2, ampersand.place),
    }
}

/// How many parentheses are open behind a letter.
fn deepen(alloc: Global, mode: Mode, letter: Letter) -> Result<u32, TextFault>
    ensures { Deepens result mode.quoting mode.depth letter }
{
    if is_open(mode.quoting) {
        return Ok(mode.depth);
    }
    match broken(mode.depth, letter.byte) {
        Some(rule) => Err(refuse(alloc, rule, letter.place)),
        None => Ok(depth_after(mode.depth, letter.byte)),
    }
}

/// Puts a letter to the end of a statement, a blank only behind another letter.
#[tactic(auto, unfolding(crate::specs::Inner::Reading::added))]
fn add(statement: &mut RawStatement, letter: Letter) -> Result<(), AllocError>
    ensures { OnOk result (spelled_of statement.new ≡ added (spelled_of statement.old) letter) }
{
    if is_blank(letter.byte) && statement.bytes.is_empty() {
        return Ok(());
    }
    statement.bytes.push(letter.byte)?;
    statement.places.push(letter.place)?;
    Ok(())
}

/// The blank for which a join stands.
#[tactic(auto, unfolding(crate::specs::Statements::join_blank))]
fn join_blank(ampersand: Letter) -> Letter
    ensures { result ≡ join_blank ampersand }
{
    Letter {
        byte: b' ',
        place: ampersand.place,
    }
}

/// Whether a letter is an `&` with which the text of its line ends.
fn joins(quoting: Quoting, letter: Letter, behind: Cursor) -> bool
    ensures { result ≡ ((letter.byte == 38) && all_blank (text (after quoting letter) (line (ahead behind.entry)))) }
{
    letter.byte == b'&' && only_blanks(after(quoting, letter), behind)
}

/// Goes on behind an `&` with which a line ends.
fn join<'a>(
    alloc: Global,
    statement: &mut RawStatement,
    mode: Mode,
    ampersand: Letter,
    behind: Cursor<'a>,
) -> Result<(Mode, Cursor<'a>), TextFault>
    requires paired { Paired (spelled_of statement.old) }
    requires is_ampersand { ampersand.byte ≡ 38 }
    requires goes { ends_text mode.quoting ampersand (ahead behind) ≡ false }
    requires last { all_blank (text (after mode.quoting ampersand) (line (ahead behind))) ≡ true }
    ensures { Joins result (spelled_of statement.old) mode ampersand behind.entry (spelled_of statement.new) }
{
    let Some(line) = text_line(below(behind)) else {
        return Err(refuse_unfinished(alloc, mode.quoting, ampersand));
    };
    if line.first.byte == b'&' {
        if only_blanks(mode.quoting, line.behind) {
            return Err(refuse_unfinished(alloc, mode.quoting, line.first));
        }
        return Ok((mode, line.behind));
    }
    if is_open(mode.quoting) {
        return Err(refuse_unfinished(alloc, mode.quoting, ampersand));
    }
    let blank = join_blank(ampersand);
    let Ok(()) = add(statement, blank) else {
        return Err(TextFault::Memory);
    };
    Ok((
        Mode {
            quoting: after(mode.quoting, blank),
            depth: mode.depth,
        },
        line.start,
    ))
}

/// Whether a byte outside character constants is one of the statement whatever stands behind it, and neither opens nor
/// closes anything.
fn is_plain(byte: u8) -> bool
    ensures { result ≡ true → IsPlain byte }
{
    if byte == b'!' {
        return false;
    }
    if byte == b';' {
        return false;
    }
    if byte == b'&' {
        return false;
    }
    if is_quote(byte) {
        return false;
    }
    if opens(byte) {
        return false;
    }
    if closes(byte) {
        return false;
    }
    is_allowed(byte)
}

/// Whether a byte stands outside character constants and is plain there.
fn is_plain_at(quoting: Quoting, byte: u8) -> bool
    ensures { result ≡ true → (quoting ≡ Outside) × IsPlain byte }
{
    match quoting {
        Quoting::Outside => is_plain(byte),
        _ => false,
    }
}

/// How many plain bytes stand at the front.
fn plain_length(bytes: &[u8]) -> usize
    ensures within { result ≤ length bytes.now }
    ensures plain { ArePlain result bytes.now }
{
    let mut count = 0;
    while count < bytes.len() && is_plain(bytes[count]) {
        count += 1;
    }
    count
}

/// Adds so many places, side by side from the first on.
fn add_places(places: &mut Vec<Place>, first: Place, count: usize) -> Result<(), AllocError>
    requires { first.column + count < 2 ^ 32 }
    ensures { OnOk result (places.new.items ≡ places.old.items ++ places_from count first) }
{
    let mut place = first;
    let mut left = count;
    while left > 0 {
        places.push(place)?;
        place = Place {
            file: place.file,
            line: place.line,
            column: place.column + 1,
        };
        left -= 1;
    }
    Ok(())
}

/// Reads a plain letter of a statement, and those behind it.
fn run<'a>(
    statement: &mut RawStatement,
    mode: Mode,
    letter: Letter,
    behind: Cursor<'a>,
) -> Result<Cursor<'a>, AllocError>
    requires outside { mode.quoting ≡ Outside }
    requires plain { IsPlain letter.byte }
    requires paired { Paired (spelled_of statement.old) }
    ensures { IfOk result (λ to. GoesOn (going (spelled_of statement.old) mode.quoting mode.depth (letter ∷ ahead behind.entry)) (spelled_of statement.old) behind.entry mode to (spelled_of statement.new)) }
{
    add(statement, letter)?;
    if statement.bytes.is_empty() {
        return Ok(behind);
    }
    let count = plain_length(behind.rest);
    let place = Place {
        file: behind.file,
        line: behind.line,
        column: behind.column,
    };
    statement.bytes.extend_from_slice(&behind.rest[..count])?;
    add_places(&mut statement.places, place, count)?;
    Ok(Cursor {
        file: behind.file,
        line: behind.line,
        column: behind.column + count as u32,
        rest: &behind.rest[count..],
    })
}

/// Reads a letter of a statement, and the plain ones behind it where it is plain.
fn step<'a>(
    alloc: Global,
    statement: &mut RawStatement,
    mode: Mode,
    letter: Letter,
    behind: Cursor<'a>,
) -> Result<Step<'a>, TextFault>
    requires { Paired (spelled_of statement.old) }
    ensures { Steps result (spelled_of statement.old) mode letter behind.entry (spelled_of statement.new) }
{
    if is_plain_at(mode.quoting, letter.byte) {
        let Ok(to) = run(statement, mode, letter, behind) else {
            return Err(TextFault::Memory);
        };
        return Ok(Step::On(mode, to));
    }
    if ends_text(mode.quoting, letter, behind) {
        return Ok(Step::Ended);
    }
    if separates(mode.quoting, letter) {
        return Ok(Step::Separated);
    }
    if joins(mode.quoting, letter, behind) {
        let (mode, at) = join(alloc, statement, mode, letter, behind)?;
        return Ok(Step::On(mode, at));
    }
    let depth = deepen(alloc, mode, letter)?;
    let Ok(()) = add(statement, letter) else {
        return Err(TextFault::Memory);
    };
    Ok(Step::On(
        Mode {
            quoting: after(mode.quoting, letter),
            depth,
        },
        behind,
    ))
}

/// Ends a statement with the text of its line.
fn finish<'a>(
    alloc: Global,
    statement: RawStatement,
    mode: Mode,
    at: Cursor<'a>,
) -> Result<(RawStatement, Cursor<'a>), TextFault>
    requires ended { text mode.quoting (line (ahead at)) ≡ [] }
    requires paired { Paired (spelled_of statement) }
    ensures read { Reads result (going (spelled_of statement) mode.quoting mode.depth (ahead at.entry)) at.entry }
    ensures shorter { Shortens result at.entry }
{
    if let Quoting::Inside(quote) = mode.quoting {
        return Err(refuse(alloc, Rule::S2, quote.place));
    }
    Ok((statement, below(at)))
}

/// A statement before its first byte, with room for those of a short line.
fn no_bytes(alloc: Global) -> Result<RawStatement, AllocError>
    ensures { IfOk result (λ s. spelled_of s ≡ none) }
{
    let bytes = Vec::with_capacity(alloc, ROOM)?;
    let places = Vec::with_capacity(alloc, ROOM)?;
    Ok(RawStatement { bytes, places })
}

/// Reads a statement to its end, and past what ends it: the `;`, or its line. The statement may be empty.
pub(crate) fn statement<'a>(
    alloc: Global,
    cursor: Cursor<'a>,
) -> Result<(RawStatement, Cursor<'a>), TextFault>
    ensures read { Reads result (going none Outside 0 (ahead cursor.entry)) cursor.entry }
    ensures shorter { Shortens result cursor.entry }
{
    let Ok(mut statement) = no_bytes(alloc) else {
        return Err(TextFault::Memory);
    };
    let mut mode = outside();
    let mut at = cursor;
    while let Some((letter, behind)) = take(at) {
        match step(alloc, &mut statement, mode, letter, behind)? {
            Step::On(next, to) => {
                mode = next;
                at = to;
            }
            Step::Separated => return Ok((statement, behind)),
            Step::Ended => return finish(alloc, statement, mode, at),
        }
    }
    finish(alloc, statement, mode, at)
}
