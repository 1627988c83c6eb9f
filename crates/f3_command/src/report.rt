//! What becomes of a call, what f3 says of it on standard error, and its exit status.

ghost use Rattle.std.specs.Prelude.{◌≡◌, ◌++◌, [], ◌∷◌, IfOk, codes, string_bytes, OnOk, OnErr};
ghost use Rattle.f3_rules.specs.Line.{file_name};
ghost use Rattle.f3_output.specs.Output.{state_of, Wrote, Faulted};
ghost use Rattle.f3_command.specs.Report.{status_of, words_of, error_line, as_line, Told, Finishes};

use f3_meaning_whole::run_error::RunError;
use f3_output::output::{Output, Refused};
use f3_places::source::{Place, Source};
use f3_rules::refusal::{Refusal, render};
use f3_run::end::End;
use std::alloc::{AllocError, Global};
use std::io::Write;

/// What becomes of a call.
#[derive(Drop)]
pub enum Outcome<'a> {
    /// It ends so: at Done, too, where sources are accepted or a table is shown.
    Ended(End),
    /// The sources are refused.
    Refused(Refusal),
    /// This file cannot be read.
    Unreadable(&'a str),
}

/// The exit status of a usage fault.
pub const USAGE: u8 = 2;
/// The exit status where the host has no memory, or a writer fails.
pub const HOST_FAULT: u8 = 5;

/// The exit status.
fn status(outcome: &Outcome<'_>) -> u8
    ensures { result ≡ status_of outcome.now }
{
    match outcome {
        Outcome::Ended(end) => status_at(*end),
        Outcome::Refused(_) => 1,
        Outcome::Unreadable(_) => USAGE,
    }
}

/// The exit status at an end.
fn status_at(end: End) -> u8
    ensures { result ≡ status_of (Outcome.Ended end) }
{
    match end {
        End::Done => 0,
        End::Stopped(_) => 0,
        End::Error { .. } => 3,
        End::StepLimit => 4,
        End::WriteFault => HOST_FAULT,
        End::Memory => HOST_FAULT,
    }
}

/// Writes a line feed.
fn write_line_feed<E: Write>(errors: &mut Output<E>) -> Result<(), Refused>
    ensures all { OnOk result (Wrote (state_of E.contents errors.old) (state_of E.contents errors.new) (10 ∷ [])) }
    ensures front { OnErr result (Faulted (state_of E.contents errors.old) (state_of E.contents errors.new) (10 ∷ [])) }
{
    errors.write(b"\n")
}

/// Writes a text and a line feed, or a front of them where the writer refuses.
fn write_line<E: Write>(errors: &mut Output<E>, text: &str) -> Result<(), Refused>
    ensures all { OnOk result (Wrote (state_of E.contents errors.old) (state_of E.contents errors.new) (text.now ++ 10 ∷ [])) }
    ensures front { OnErr result (Faulted (state_of E.contents errors.old) (state_of E.contents errors.new) (text.now ++ 10 ∷ [])) }
{
    match errors.write(text.as_bytes()) {
        Ok(()) => write_line_feed(errors),
        Err(refused) => Err(refused),
    }
}

/// Tells a text as a line, whatever becomes of it: the exit status tells as much. No text is no line.
pub fn tell<E: Write>(errors: &mut Output<E>, text: &str)
    ensures { Told (state_of E.contents errors.old) (state_of E.contents errors.new) (as_line text.now) }
{
    if text.is_empty() {
        return;
    }
    let _told = write_line(errors, text);
}

/// The words of a want of memory, and their status.
pub fn want_of_memory<E: Write>(errors: &mut Output<E>) -> u8
    ensures status { result ≡ 5 }
    ensures told { Told (state_of E.contents errors.old) (state_of E.contents errors.new) (as_line (codes "want of memory")) }
{
    tell(errors, "want of memory");
    HOST_FAULT
}

/// Tells the line of an outcome, where it has one, and answers its status; or those of a want of memory.
pub fn finish<E: Write>(
    alloc: Global,
    sources: &[Source],
    outcome: &Outcome<'_>,
    errors: &mut Output<E>,
) -> u8
    ensures { Finishes sources.now outcome.now (state_of E.contents errors.old) (state_of E.contents errors.new) result }
{
    match words(alloc, sources, outcome) {
        Ok(text) => {
            tell(errors, text.as_str());
            status(outcome)
        }
        Err(_) => want_of_memory(errors),
    }
}

/// What is told of an outcome; empty where nothing is.
fn words(alloc: Global, sources: &[Source], outcome: &Outcome<'_>) -> Result<String, AllocError>
    ensures { IfOk result (λ text. string_bytes text ≡ words_of sources.now outcome.now) }
{
    match outcome {
        Outcome::Ended(end) => words_at(alloc, sources, *end),
        Outcome::Refused(refusal) => render(alloc, sources, refusal),
        Outcome::Unreadable(name) => {
            let name = *name;
            format!(in alloc; "cannot read {name}")
        }
    }
}

/// What is told of an end.
fn words_at(alloc: Global, sources: &[Source], end: End) -> Result<String, AllocError>
    ensures { IfOk result (λ text. string_bytes text ≡ words_of sources.now (Outcome.Ended end)) }
{
    match end {
        End::Done => Ok(String::new(alloc)),
        End::Stopped(None) => Ok(String::new(alloc)),
        End::Stopped(Some(code)) => format!(in alloc; "STOP {code}"),
        End::Error { error, place } => error_line(alloc, sources, error, place),
        End::StepLimit => String::from_str(alloc, "step limit"),
        End::WriteFault => String::from_str(alloc, "write fault"),
        End::Memory => String::from_str(alloc, "want of memory"),
    }
}

/// The name of a source by its number, from 1; empty where there is no such source.
fn file_name(sources: &[Source], file: usize) -> &str
    ensures { result.now ≡ file_name sources.now file }
{
    if file == 0 {
        return "";
    }
    match sources.get(file - 1) {
        Some(source) => source.name.as_str(),
        None => "",
    }
}

/// `file:line:column: error 9: in use by an argument`
fn error_line(
    alloc: Global,
    sources: &[Source],
    error: RunError,
    place: Place,
) -> Result<String, AllocError>
    ensures { IfOk result (λ text. string_bytes text ≡ error_line sources.now error place) }
{
    let file = file_name(sources, place.file);
    let line = place.line;
    let column = place.column;
    let number = error.number();
    let words = error.words();
    format!(in alloc; "{file}:{line}:{column}: error {number}: {words}")
}
