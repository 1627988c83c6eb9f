//! The command line.

ghost use Rattle.std.specs.Prelude.{◌≡◌, IfOk};
ghost use Rattle.clap.specs.Words.{app_of, rule_of};
ghost use Rattle.f3_command_line.specs.Command.{Joins, files_rule, steps_rule, heap_rule, check_app, run_app, names_app, code_app, f3_app};

use clap::{Arg, ArgAction, Command, value_parser};
use std::alloc::{AllocError, Global};

/// The steps of a run, where no option says more.
const STEPS: &str = "100000000";
/// The words of a run's heap, where no option says more.
const HEAP_WORDS: &str = "1048576";

/// The version of f3, and the toolchain that proved it.
const VERSION: &str = "0.1.0 (rattle-kit-13f, logic dac8208d650f15bf)";

/// The command line of f3: `check FILE...`, `run [--steps N] [--heap WORDS] FILE...`, `names FILE...` and `code FILE...`.
pub fn command<'a>(alloc: Global) -> Result<Command<'a>, AllocError>
    ensures { IfOk result (λ c. app_of c ≡ f3_app) }
{
    let f3 = Command::new(alloc, "f3")
        .version(VERSION)
        .about("Checks, compiles and runs libraries of Fortran modules")
        .subcommand_required(true);
    let f3 = with_subcommand(f3, check(alloc))?;
    let f3 = with_subcommand(f3, run(alloc))?;
    let f3 = with_subcommand(f3, names(alloc))?;
    with_subcommand(f3, code(alloc))
}

fn with_subcommand<'a>(
    command: Command<'a>,
    subcommand: Result<Command<'a>, AllocError>,
) -> Result<Command<'a>, AllocError>
    ensures { IfOk result (Joins (app_of command.entry) subcommand.entry) }
{
    match subcommand {
        Ok(subcommand) => command.subcommand(subcommand),
        Err(refused) => {
            drop(command);
            Err(refused)
        }
    }
}

fn check<'a>(alloc: Global) -> Result<Command<'a>, AllocError>
    ensures { IfOk result (λ c. app_of c ≡ check_app) }
{
    Command::new(alloc, "check")
        .about("Checks the sources, and refuses them in one line or accepts them")
        .arg(files(alloc))
}

fn run<'a>(alloc: Global) -> Result<Command<'a>, AllocError>
    ensures { IfOk result (λ c. app_of c ≡ run_app) }
{
    Command::new(alloc, "run")
        .about("Checks the sources and runs their program")
        .arg(steps(alloc))?
        .arg(heap(alloc))?
        .arg(files(alloc))
}

fn names<'a>(alloc: Global) -> Result<Command<'a>, AllocError>
    ensures { IfOk result (λ c. app_of c ≡ names_app) }
{
    Command::new(alloc, "names")
        .about("Checks the names of the sources, and shows what each program unit sees")
        .arg(files(alloc))
}

fn code<'a>(alloc: Global) -> Result<Command<'a>, AllocError>
    ensures { IfOk result (λ c. app_of c ≡ code_app) }
{
    Command::new(alloc, "code")
        .about("Checks the sources, and shows the code that runs")
        .arg(files(alloc))
}

fn files<'a>(alloc: Global) -> Arg<'a>
    ensures { rule_of result ≡ files_rule }
{
    Arg::new(alloc, "FILE")
        .required(true)
        .num_args(1..)
        .action(ArgAction::Append)
        .help("The sources, in order")
}

fn steps<'a>(alloc: Global) -> Arg<'a>
    ensures { rule_of result ≡ steps_rule }
{
    Arg::new(alloc, "steps")
        .long("steps")
        .value_name("N")
        .value_parser(value_parser!(u64).range(0..=1_000_000_000_000))
        .default_value(STEPS)
        .action(ArgAction::Set)
        .help("Ends the run after so many steps")
}

fn heap<'a>(alloc: Global) -> Arg<'a>
    ensures { rule_of result ≡ heap_rule }
{
    Arg::new(alloc, "heap")
        .long("heap")
        .value_name("WORDS")
        .value_parser(value_parser!(usize).range(0..=134_217_728))
        .default_value(HEAP_WORDS)
        .action(ArgAction::Set)
        .help("The words of the run's heap: what needs more is refused")
}
