//! A case, run.

use crate::folder::Folder;
use crate::planning::acts_of;
use f3_command::program::f3;
use f3_output::output::Output;
use f3_row_cases::cases::{Case, Text};
use std::alloc::{AllocError, Global};
use std::io::Write;

/// What f3 wrote and answered.
#[derive(Drop)]
struct Answer {
    output: Vec<u8>,
    errors: Vec<u8>,
    status: u8,
}

/// The words of a command line, behind the program's name.
fn line_of(alloc: Global, words: &[String]) -> Result<Vec<String>, AllocError> {
    let mut line = Vec::new(alloc);
    line.push(String::from_str(alloc, "f3")?)?;
    for word in words {
        line.push(word.clone()?)?;
    }
    Ok(line)
}

/// Runs f3 on these words and files.
fn run<W: Write>(
    alloc: Global,
    words: &[String],
    files: &[(&str, &[u8])],
    output: &mut Output<W>,
    errors: &mut Output<Vec<u8>>,
) -> Result<u8, AllocError> {
    let line = line_of(alloc, words)?;
    let status = f3(alloc, line.as_slice(), &Folder { files }, output, errors);
    drop(line);
    Ok(status)
}

/// What f3 wrote, and what it answered, if it was run.
fn answered(
    alloc: Global,
    status: Result<u8, AllocError>,
    output: &[u8],
    errors: &[u8],
) -> Result<Answer, AllocError> {
    let status = status?;
    let output = Vec::from_slice(alloc, output)?;
    Ok(Answer {
        output,
        errors: Vec::from_slice(alloc, errors)?,
        status,
    })
}

/// What f3 writes and answers on these words and files.
fn answer_of(
    alloc: Global,
    words: &[String],
    files: &[(&str, &[u8])],
) -> Result<Answer, AllocError> {
    let mut output = Output::new(Vec::<u8>::new(alloc));
    let mut errors = Output::new(Vec::<u8>::new(alloc));
    let status = run(alloc, words, files, &mut output, &mut errors);
    let answer = answered(
        alloc,
        status,
        output.writer().as_slice(),
        errors.writer().as_slice(),
    );
    drop(errors);
    drop(output);
    answer
}

/// The same where the output has room for so many bytes alone, which are given.
fn answer_into(
    alloc: Global,
    words: &[String],
    files: &[(&str, &[u8])],
    bytes: &mut [u8],
) -> Result<Answer, AllocError> {
    let mut output = Output::new(&mut *bytes);
    let mut errors = Output::new(Vec::<u8>::new(alloc));
    let status = run(alloc, words, files, &mut output, &mut errors);
    drop(output);
    let answer = answered(alloc, status, bytes, errors.writer().as_slice());
    drop(errors);
    answer
}

/// The same where it has room for so many.
fn answer_within(
    alloc: Global,
    words: &[String],
    files: &[(&str, &[u8])],
    room: usize,
) -> Result<Answer, AllocError> {
    let mut bytes = vec![in alloc; 0u8; room]?;
    let answer = answer_into(alloc, words, files, bytes.as_mut_slice());
    drop(bytes);
    answer
}

fn fits(text: &Text, bytes: &[u8]) -> bool {
    match text {
        Text::Is(expected) => expected.as_slice() == bytes,
        Text::Some => !bytes.is_empty(),
    }
}

/// Whether this is one line of refusal, and nothing else.
fn is_refused(answer: &Answer) -> bool {
    let errors = answer.errors.as_slice();
    answer.status == 1
        && answer.output.is_empty()
        && errors.iter().position(|byte| *byte == b'\n') == Some(errors.len().saturating_sub(1))
}

/// Whether f3 refuses each front of the case's first source that is to be tried.
fn are_refused(alloc: Global, case: &Case) -> Result<bool, AllocError> {
    let Some(first) = case.sources.first() else {
        return Ok(case.prefixes == 0);
    };
    for length in 0..case.prefixes.min(first.bytes.len()) {
        let files = [(first.name.as_str(), &first.bytes.as_slice()[..length])];
        if !is_refused(&answer_of(alloc, case.words.as_slice(), &files)?) {
            return Ok(false);
        }
    }
    Ok(true)
}

/// Whether the plan of the case's sources has the acts that it tells of.
fn are_planned(alloc: Global, case: &Case) -> Result<bool, AllocError> {
    let Some(expected) = &case.acts else {
        return Ok(true);
    };
    let acts = acts_of(alloc, case.sources.as_slice())?;
    Ok(acts.as_str().as_bytes() == expected.as_slice())
}

/// Whether f3 writes and answers what is expected.
pub fn is_as_expected(alloc: Global, case: &Case) -> Result<bool, AllocError> {
    let mut files = Vec::new(alloc);
    for source in &case.sources {
        files.push((source.name.as_str(), source.bytes.as_slice()))?;
    }
    let words = case.words.as_slice();
    let answer = match case.room {
        None => answer_of(alloc, words, files.as_slice())?,
        Some(room) => answer_within(alloc, words, files.as_slice(), room)?,
    };
    Ok(
        answer.status == case.status
            && fits(&case.output, answer.output.as_slice())
            && fits(&case.errors, answer.errors.as_slice())
            && are_refused(alloc, case)?
            && are_planned(alloc, case)?,
    )
}
