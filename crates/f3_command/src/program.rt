//! The program over its words, its files and its writers.

ghost use Rattle.std.specs.Prelude.{◌≡◌, ◌⊎◌, [], ℕ, List, Option, IfOk, IfErr, true, codes, is_some, map, string_bytes, unwrap_or};
ghost use Rattle.clap.specs.Words.{found_of, kind_of, one_text, rows_of, subcommand_rows_of, HasKind, ReadsOne};
ghost use Rattle.f3_output.specs.Output.{state_of};
ghost use Rattle.f3_command.specs.Program.{faults_of, asked_of, task_of, WantsMemory, Says, Acts, Obeys};
ghost use Rattle.f3_command.specs.Task.{IsTask, OfRun};

use crate::report::{Outcome, USAGE, finish, want_of_memory};
use crate::work::{Task, perform, shown};
use clap::ArgMatches;
use clap::error::ErrorKind;
use f3_command_line::command::command;
use f3_files::files::Opener;
use f3_output::output::Output;
use f3_run::end::Limits;
use std::alloc::Global;
use std::io::Write;
use std::str::FromStr;

/// Does what the words ask for, and answers the exit status. The first word is the program's own name.
pub fn f3<F: Opener, O: Write, E: Write>(
    alloc: Global,
    words: &[String],
    files: &F,
    output: &mut Output<O>,
    errors: &mut Output<E>,
) -> u8
    ensures { Obeys (F.contents files.now) (map string_bytes words.now) (state_of O.contents output.old) (state_of O.contents output.new)
        (state_of E.contents errors.old) (state_of E.contents errors.new) result }
{
    match read(alloc, words) {
        Ok(matches) => act(alloc, &matches, files, output, errors),
        Err(error) => usage(alloc, &error, output, errors),
    }
}

/// Reads the words.
fn read<'a>(alloc: Global, words: &'a [String]) -> Result<ArgMatches<'a>, clap::Error>
    ensures taken { IfOk result (λ m. (faults_of (map string_bytes words.entry.now) ≡ [])
        × (subcommand_rows_of m ≡ asked_of (map string_bytes words.entry.now)) × (is_some (subcommand_rows_of m) ≡ true)) }
    ensures refused { IfErr result (HasKind (faults_of (map string_bytes words.entry.now))) }
{
    command(alloc)?.try_get_matches_from(words)
}

/// Writes what the reader of the command line says, and answers its status.
fn usage<O: Write, E: Write>(
    alloc: Global,
    error: &clap::Error,
    output: &mut Output<O>,
    errors: &mut Output<E>,
) -> u8
    ensures { WantsMemory (state_of O.contents output.old) (state_of O.contents output.new) (state_of E.contents errors.old) (state_of E.contents errors.new) result
        ⊎ Says (kind_of error.now) (state_of O.contents output.old) (state_of O.contents output.new) (state_of E.contents errors.old) (state_of E.contents errors.new) result }
{
    if error.kind() == ErrorKind::OutOfMemory {
        return want_of_memory(errors);
    }
    let Ok(text) = error.to_string(alloc) else {
        return want_of_memory(errors);
    };
    if error.use_stderr() {
        let _told = errors.write(text.as_bytes());
        return USAGE;
    }
    let outcome = Outcome::Ended(shown(text.as_str(), output));
    finish(alloc, &[], &outcome, errors)
}

/// Does what the subcommand says, with its files.
fn act<'a, F: Opener, O: Write, E: Write>(
    alloc: Global,
    matches: &ArgMatches<'a>,
    files: &F,
    output: &mut Output<O>,
    errors: &mut Output<E>,
) -> u8
    ensures { Acts (F.contents files.now) (subcommand_rows_of matches.now) (state_of O.contents output.old) (state_of O.contents output.new)
        (state_of E.contents errors.old) (state_of E.contents errors.new) result }
{
    let Some((name, inner)) = matches.subcommand() else {
        return USAGE;
    };
    let names = inner.get_strs("FILE").unwrap_or(&[]);
    perform(alloc, task(name, inner), names, files, output, errors)
}

/// What a subcommand of this name asks for.
pub fn task(name: &str, inner: &ArgMatches<'_>) -> Task
    ensures name { IsTask name.now result }
    ensures steps { (text : List ℕ) → one_text (found_of inner.now) (codes "steps") ≡ Some text
        → OfRun result (λ limits. (number : Option ℕ) × ReadsOne ⟦<u64 as FromStr>⟧.from_str_gives text number × (limits.steps ≡ unwrap_or number 0)) }
    ensures heap { (text : List ℕ) → one_text (found_of inner.now) (codes "heap") ≡ Some text
        → OfRun result (λ limits. (number : Option ℕ) × ReadsOne ⟦<usize as FromStr>⟧.from_str_gives text number × (limits.heap_words ≡ unwrap_or number 0)) }
    ensures whole { result ≡ task_of name.now (rows_of (found_of inner.now)) }
{
    if name == "check" {
        return Task::Check;
    }
    if name == "names" {
        return Task::Names;
    }
    if name == "code" {
        return Task::Code;
    }
    Task::Run(Limits {
        steps: inner.get_one::<u64>("steps").unwrap_or(0),
        heap_words: inner.get_one::<usize>("heap").unwrap_or(0),
    })
}
