//! What f3 does with its files.

ghost use Rattle.std.specs.Prelude.{◌≡◌, [], map, OnOk, OnErr};
ghost use Rattle.f3_run.specs.declared.end.Limits.{Limits};
ghost use Rattle.f3_program.specs.declared.program.Program.{Program};
ghost use Rattle.f3_output.specs.Output.{State, state_of, Wrote, Faulted};
ghost use Rattle.f3_run.specs.Answers.{Answers};
ghost use Rattle.f3_command.specs.Work.{outcome_of, AreAccepted, Accepts, Checks, Shown, Shows, Lists, Runs, Works, Performs};

use crate::report::{Outcome, finish};
use f3_compile::code::check_and_code;
use f3_files::files::{Opener, ReadFault, read_sources};
use f3_graph::CheckFault;
use f3_name_table::name_table;
use f3_output::output::{Output, Refused};
use f3_places::source::Source;
use f3_run::end::{End, Limits};
use f3_run::run::check_and_run;
use std::alloc::Global;
use std::io::Write;

/// What f3 is asked to do with its files.
#[derive(Clone, Copy)]
pub enum Task {
    Check,
    Names,
    Code,
    Run(Limits),
}

/// Reads the files in order and does the task with their sources; tells what becomes of it on standard error, and answers
/// the exit status.
pub fn perform<F: Opener, O: Write, E: Write>(
    alloc: Global,
    task: Task,
    names: &[&str],
    files: &F,
    output: &mut Output<O>,
    errors: &mut Output<E>,
) -> u8
    ensures { Performs (F.contents files.now) (map (λ name. name.now) names.now) task (state_of O.contents output.old) (state_of O.contents output.new)
        (state_of E.contents errors.old) (state_of E.contents errors.new) result }
{
    match read_sources(alloc, files, names) {
        Ok(sources) => {
            let outcome = work(alloc, task, sources.as_slice(), output);
            finish(alloc, sources.as_slice(), &outcome, errors)
        }
        Err(ReadFault::Unreadable(name)) => {
            finish(alloc, &[], &Outcome::Unreadable(name), errors)
        }
        Err(ReadFault::Memory) => finish(alloc, &[], &Outcome::Ended(End::Memory), errors),
    }
}

fn work<O: Write>(
    alloc: Global,
    task: Task,
    sources: &[Source],
    output: &mut Output<O>,
) -> Outcome<'static>
    ensures { Works task sources.now (state_of O.contents output.old) (state_of O.contents output.new) result }
{
    match task {
        Task::Check => check(alloc, sources),
        Task::Names => names(alloc, sources, output),
        Task::Code => code(alloc, sources, output),
        Task::Run(limits) => run(alloc, sources, limits, output),
    }
}

/// `f3 check`
fn check(alloc: Global, sources: &[Source]) -> Outcome<'static>
    ensures { Checks sources.now result }
{
    match accept(alloc, sources) {
        Ok(()) => Outcome::Ended(End::Done),
        Err(fault) => outcome(fault),
    }
}

/// Whether the sources break no rule.
fn accept(alloc: Global, sources: &[Source]) -> Result<(), CheckFault>
    ensures { Accepts sources.now result }
{
    let checked = f3_accepted::check::check(alloc, sources)?;
    checked.release();
    Ok(())
}

/// `f3 names`
fn names<O: Write>(alloc: Global, sources: &[Source], output: &mut Output<O>) -> Outcome<'static>
    ensures { Shows sources.now (state_of O.contents output.old) (state_of O.contents output.new) result }
{
    match name_table(alloc, sources) {
        Ok(text) => Outcome::Ended(shown(text.as_str(), output)),
        Err(fault) => outcome(fault),
    }
}

/// `f3 code`
fn code<O: Write>(alloc: Global, sources: &[Source], output: &mut Output<O>) -> Outcome<'static>
    ensures { Lists sources.now (state_of O.contents output.old) (state_of O.contents output.new) result }
{
    match check_and_code(alloc, sources) {
        Ok(text) => Outcome::Ended(shown(text.as_str(), output)),
        Err(fault) => outcome(fault),
    }
}

/// `f3 run`
fn run<O: Write>(
    alloc: Global,
    sources: &[Source],
    limits: Limits,
    output: &mut Output<O>,
) -> Outcome<'static>
    ensures { Runs sources.now limits (state_of O.contents output.old) (state_of O.contents output.new) result }
{
    match check_and_run(alloc, sources, limits, output) {
        Ok(end) => Outcome::Ended(flushed(end, output)),
        Err(fault) => outcome(fault),
    }
}

/// What becomes of a fault.
fn outcome(fault: CheckFault) -> Outcome<'static>
    ensures { result ≡ outcome_of fault }
{
    match fault {
        CheckFault::Refused(refusal) => Outcome::Refused(refusal),
        CheckFault::Memory => Outcome::Ended(End::Memory),
    }
}

/// Writes a text, and hands it on.
fn show<O: Write>(text: &str, output: &mut Output<O>) -> Result<(), Refused>
    ensures all { OnOk result (Wrote (state_of O.contents output.old) (state_of O.contents output.new) text.now) }
    ensures front { OnErr result (Faulted (state_of O.contents output.old) (state_of O.contents output.new) text.now) }
{
    match output.write(text.as_bytes()) {
        Ok(()) => output.flush(),
        Err(refused) => Err(refused),
    }
}

/// How the showing of a text ends.
pub fn shown<O: Write>(text: &str, output: &mut Output<O>) -> End
    ensures { Shown (state_of O.contents output.old) (state_of O.contents output.new) text.now result }
{
    match show(text, output) {
        Ok(()) => End::Done,
        Err(_) => End::WriteFault,
    }
}

/// The end of a run whose output is handed on.
fn flushed<O: Write>(end: End, output: &mut Output<O>) -> End
    ensures { (p : Program) (limits : Limits) (before : State) → Answers p limits before (state_of O.contents output.old) end
        → Answers p limits before (state_of O.contents output.new) result }
{
    match output.flush() {
        Ok(()) => end,
        Err(_) => End::WriteFault,
    }
}
