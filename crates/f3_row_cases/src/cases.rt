//! Cases, and how they are written.
//!
//! A line `case NAME` begins a case; the lines behind it tell of it: `word W` for each word of the command line behind
//! the program's name; `source NAME`, `output` and `errors` begin a text, whose lines follow, each behind a `|`, or
//! behind a `:` where no line feed ends it; `errors some` wants a text, whatever it is; `status N`. A text that is not
//! told of is empty, and a status is 0. `acts` begins one more text: the acts by which registers run the sources, which are
//! not looked at in a case that does not tell of them. `prefixes N` asks for more: each front of the first source of fewer than N bytes is
//! refused. `room N`: the output has room for N bytes alone. `times N` writes the line of a text behind it N times, with the number of the time for each `#` and that of the
//! time before for each `@`. `growths` is for bench/growths.py, which refuses each growth of the host's memory in turn. An empty
//! line, or one that begins with `#`, also between the lines of a text, says nothing.

use f3_places::source::Source;
use std::alloc::{AllocError, Global};

/// What is expected of a writer.
#[derive(Drop)]
pub enum Text {
    Is(Vec<u8>),
    /// Not nothing.
    Some,
}

/// A run of the program, and what it is expected to write and to answer.
#[derive(Drop)]
pub struct Case {
    pub name: String,
    pub words: Vec<String>,
    pub sources: Vec<Source>,
    pub output: Text,
    pub errors: Text,
    pub status: u8,
    /// The acts of the plan of the sources, where they are looked at.
    pub acts: Option<Vec<u8>>,
    /// Each front of the first source of fewer bytes is refused.
    pub prefixes: usize,
    /// For how many bytes the output has room, if not for all.
    pub room: Option<usize>,
}

/// To what a line of text belongs.
#[derive(Clone, Copy)]
enum Part {
    Nothing,
    Source,
    Output,
    Errors,
    Acts,
}

/// The cases of a text, in order. A line of no form is passed over.
pub fn read(alloc: Global, bytes: &[u8]) -> Result<Vec<Case>, AllocError> {
    let mut cases: Vec<Case> = Vec::new(alloc);
    let mut part = Part::Nothing;
    let mut times = 1usize;
    for line in bytes.split(|byte| *byte == b'\n') {
        if let Some(name) = line.strip_prefix(b"case ") {
            cases.push(begun(alloc, name)?)?;
            part = Part::Nothing;
        } else if let Some(number) = line.strip_prefix(b"times ") {
            times = number_of(number);
        } else if let Some(case) = cases.last_mut() {
            part = more(alloc, case, part, line, times)?;
            times = 1;
        }
    }
    Ok(cases)
}

/// A case of which only the name is known.
fn begun(alloc: Global, name: &[u8]) -> Result<Case, AllocError> {
    Ok(Case {
        name: text_of(alloc, name)?,
        words: Vec::new(alloc),
        sources: Vec::new(alloc),
        output: Text::Is(Vec::new(alloc)),
        errors: Text::Is(Vec::new(alloc)),
        status: 0,
        acts: None,
        prefixes: 0,
        room: None,
    })
}

fn text_of(alloc: Global, bytes: &[u8]) -> Result<String, AllocError> {
    match str::from_utf8(bytes) {
        Ok(text) => String::from_str(alloc, text),
        Err(_) => Ok(String::new(alloc)),
    }
}

/// A number, or 0 where there is none.
fn number_of(bytes: &[u8]) -> usize {
    match str::from_utf8(bytes) {
        Ok(text) => text.parse().unwrap_or(0),
        Err(_) => 0,
    }
}

/// A source of this name, which has no bytes so far.
fn source(alloc: Global, name: &[u8]) -> Result<Source, AllocError> {
    Ok(Source {
        name: text_of(alloc, name)?,
        bytes: Vec::new(alloc),
    })
}

/// Takes one more line of a case, or so many; answers to what the next line of text belongs.
fn more(
    alloc: Global,
    case: &mut Case,
    part: Part,
    line: &[u8],
    times: usize,
) -> Result<Part, AllocError> {
    if let Some(text) = line.strip_prefix(b"|") {
        let mut text = Vec::from_slice(alloc, text)?;
        text.push(b'\n')?;
        add(alloc, case, part, text.as_slice(), times)?;
        return Ok(part);
    }
    if let Some(text) = line.strip_prefix(b":") {
        add(alloc, case, part, text, times)?;
        return Ok(part);
    }
    if line.starts_with(b"#") {
        return Ok(part);
    }
    told(alloc, case, line)
}

/// Takes a line that is no text; answers to what the next line of text belongs.
fn told(alloc: Global, case: &mut Case, line: &[u8]) -> Result<Part, AllocError> {
    if let Some(word) = line.strip_prefix(b"word ") {
        case.words.push(text_of(alloc, word)?)?;
    } else if let Some(name) = line.strip_prefix(b"source ") {
        case.sources.push(source(alloc, name)?)?;
        return Ok(Part::Source);
    } else if let Some(status) = line.strip_prefix(b"status ") {
        case.status = u8::try_from(number_of(status)).unwrap_or(255);
    } else if let Some(bytes) = line.strip_prefix(b"prefixes ") {
        case.prefixes = number_of(bytes);
    } else if let Some(bytes) = line.strip_prefix(b"room ") {
        case.room = Some(number_of(bytes));
    } else if line == b"errors some".as_slice() {
        case.errors = Text::Some;
    } else if line == b"output some".as_slice() {
        case.output = Text::Some;
    } else if line == b"output".as_slice() {
        return Ok(Part::Output);
    } else if line == b"errors".as_slice() {
        return Ok(Part::Errors);
    } else if line == b"acts".as_slice() {
        case.acts = Some(Vec::new(alloc));
        return Ok(Part::Acts);
    }
    Ok(Part::Nothing)
}

/// Adds a text to a part of a case: as it is, or so many times and numbered.
fn add(
    alloc: Global,
    case: &mut Case,
    part: Part,
    text: &[u8],
    times: usize,
) -> Result<(), AllocError> {
    if times == 1 {
        return add_bytes(case, part, text);
    }
    for before in 0..times {
        add_bytes(case, part, numbered(alloc, text, before)?.as_slice())?;
    }
    Ok(())
}

/// A text with this number for each `@`, and the next for each `#`.
fn numbered(alloc: Global, text: &[u8], before: usize) -> Result<Vec<u8>, AllocError> {
    let mut found = Vec::new(alloc);
    for byte in text {
        match *byte {
            b'@' => add_number(alloc, &mut found, before)?,
            b'#' => add_number(alloc, &mut found, before.saturating_add(1))?,
            other => found.push(other)?,
        }
    }
    Ok(found)
}

fn add_number(alloc: Global, text: &mut Vec<u8>, number: usize) -> Result<(), AllocError> {
    let digits = format!(in alloc; "{number}")?;
    text.extend_from_slice(digits.as_str().as_bytes())
}

/// Adds bytes to a part of a case.
fn add_bytes(case: &mut Case, part: Part, bytes: &[u8]) -> Result<(), AllocError> {
    match part {
        Part::Nothing => Ok(()),
        Part::Source => match case.sources.last_mut() {
            Some(source) => source.bytes.extend_from_slice(bytes),
            None => Ok(()),
        },
        Part::Output => add_to(&mut case.output, bytes),
        Part::Errors => add_to(&mut case.errors, bytes),
        Part::Acts => match &mut case.acts {
            Some(acts) => acts.extend_from_slice(bytes),
            None => Ok(()),
        },
    }
}

fn add_to(text: &mut Text, bytes: &[u8]) -> Result<(), AllocError> {
    match text {
        Text::Is(text) => text.extend_from_slice(bytes),
        Text::Some => Ok(()),
    }
}
