//! How much room stacks want.

ghost use Rattle.std.specs.Prelude.{◌≡◌, ◌<◌, ◌≤◌, ◌-◌, ◌^◌, IfSome, MatchOption, length, min};
ghost use Rattle.f3_code.specs.Code.{program_code};
ghost use Rattle.f3_code.specs.Lower.{lowered_program};
ghost use Rattle.f3_gen_values.specs.Emission.{code_in};
ghost use Rattle.f3_heights.specs.Room.{greatest};
ghost use Rattle.f3_sizes.specs.Needs.{AreNeverDeeper};
ghost use Rattle.f3_sizes.specs.Parts.{AreCodeParts, AreParts, IsPartAt, first_of, part_lines};
ghost use Rattle.f3_word_needs.specs.Names.{after_line, dummies_among, most_dummies, most_names, most_open, names_among, names_told, open_among, open_told, parts_open};
ghost use Rattle.f3_word_needs.specs.Needs.{AreEnough, AreTold, AreTooMany};

use f3_code::instruction::Instruction;
use f3_gen_values::emission::Emission;
use f3_gen_values::line::Line;
use f3_program::program::{Procedure, Program};
use f3_sizes::answer::Needs;

/// How many there are at most in each state of each run.
#[derive(Clone, Copy, PartialEq, Eq, Debug)]
pub struct StackNeeds {
    /// Cells of all activations.
    pub cells: usize,
    /// Names that statements of all activations may name, and once more those of ASSOCIATEs that are open.
    pub names: usize,
    /// Dummies of the procedures that were called, and names of ASSOCIATEs that are open.
    pub kept: usize,
    /// Levels of values.
    pub levels: usize,
}

/// No more cells or names than this are told.
const MOST: usize = 1 << 48;

/// How many names of ASSOCIATEs are open behind a line, where so many are before it (ISO/IEC 1539-1:2004, 8.1.4): none where 64 bits do not
/// tell.
fn behind(before: usize, act: Instruction) -> Option<usize>
    ensures { MatchOption result (2 ^ 64 ≤ after_line before act) (λ n. n ≡ after_line before act) }
{
    match act {
        Instruction::Associate(more) => before.checked_add(more),
        Instruction::NextObject(_) => Some(before.saturating_sub(1)),
        _ => Some(before),
    }
}

/// How many names of ASSOCIATEs are open at once at lines, as far as 64 bits tell.
fn opened(lines: &[Line]) -> usize
    ensures { result ≡ min (open_among lines.now) (2 ^ 64 - 1) }
{
    let mut now = 0;
    let mut most = 0;
    for line in lines {
        match behind(now, line.act) {
            Some(next) => now = next,
            None => return usize::MAX,
        }
        most = most.max(now);
    }
    most
}

/// The greatest of some numbers.
fn greatest_of(numbers: &[usize]) -> usize
    ensures { result ≡ greatest numbers.now }
{
    let mut most = 0;
    for number in numbers {
        most = most.max(*number);
    }
    most
}

/// The first of lines, or the one behind them.
fn first_line(starts: &[usize], end: usize) -> usize
    ensures { result ≡ first_of starts.now end }
{
    if starts.is_empty() { end } else { starts[0] }
}

/// How many names of ASSOCIATEs are open at once in a procedure, whose code stands from the line of a number up to the next, as far as 64
/// bits tell.
fn opened_at(lines: &[Line], starts: &[usize], at: usize) -> usize
    requires there { at < length starts.now }
    requires part { IsPartAt lines.now starts.now (length lines.now) 0 at }
    ensures { result ≡ min (open_among (part_lines lines.now starts.now (length lines.now) at)) (2 ^ 64 - 1) }
{
    let next = first_line(&starts[at + 1..], lines.len());
    opened(&lines[starts[at]..next])
}

/// How many names the procedure has that has most, where their codes begin at these lines: its dummies, and twice those of its
/// ASSOCIATEs that are open at once (8.1.4, 12.5.2.1), as far as 64 bits tell.
fn procedures_names(procedures: &[Procedure], lines: &[Line], starts: &[usize]) -> usize
    requires same { length starts.now ≡ length procedures.now }
    requires parts { AreParts lines.now starts.now (length lines.now) 0 }
    ensures { result ≡ min (names_among lines.now starts.now (length lines.now) procedures.now) (2 ^ 64 - 1) }
{
    let mut most = 0;
    for at in 0..starts.len() {
        let twice = opened_at(lines, starts, at).saturating_mul(2);
        most = most.max(twice.saturating_add(procedures[at].dummies.len()));
    }
    most
}

/// How many names of ASSOCIATEs are open at once in the procedure that has most of them, as far as 64 bits tell.
fn procedures_open(lines: &[Line], starts: &[usize]) -> usize
    requires { AreParts lines.now starts.now (length lines.now) 0 }
    ensures { result ≡ min (parts_open lines.now starts.now (length lines.now)) (2 ^ 64 - 1) }
{
    let mut most = 0;
    for at in 0..starts.len() {
        most = most.max(opened_at(lines, starts, at));
    }
    most
}

/// How many dummies the procedure has that has most.
fn dummies(procedures: &[Procedure]) -> usize
    ensures { result ≡ dummies_among procedures.now }
{
    let mut most = 0;
    for procedure in procedures {
        most = most.max(procedure.dummies.len());
    }
    most
}

/// What is told of names, as far as 64 bits tell: how many the main program has, or the procedure that has most; how many of ASSOCIATEs that
/// are open at once; and how many dummies the procedure that has most.
#[derive(Clone, Copy)]
struct Names {
    all: usize,
    at_once: usize,
    dummies: usize,
}

/// The names of a program, by the lines of its code, and by those with which routines and procedures begin.
fn told(program: &Program, lines: &[Line], routines: &[usize], starts: &[usize]) -> Names
    requires parts { AreCodeParts lines.now routines.now starts.now }
    requires same { length starts.now ≡ length program.now.procedures.items }
    ensures all { result.all ≡ min (names_told lines.now routines.now starts.now program.now) (2 ^ 64 - 1) }
    ensures opened { result.at_once ≡ min (open_told lines.now routines.now starts.now) (2 ^ 64 - 1) }
    ensures dummies { result.dummies ≡ dummies_among program.now.procedures.items }
{
    let behind_routines = first_line(starts, lines.len());
    let behind_main = first_line(routines, behind_routines);
    let of_main = opened(&lines[..behind_main]);
    let of_procedures = procedures_names(&program.procedures, lines, starts);
    Names {
        all: of_main.saturating_mul(2).max(of_procedures),
        at_once: of_main.max(procedures_open(lines, starts)),
        dummies: dummies(&program.procedures),
    }
}

/// The names of a program, by the code that was emitted for it.
fn names_of(program: &Program, emission: &Emission) -> Names
    requires { code_in program.now emission.now ≡ program_code (lowered_program program.now) }
    ensures all { result.all ≡ min (most_names (lowered_program program.now)) (2 ^ 64 - 1) }
    ensures opened { result.at_once ≡ min (most_open (lowered_program program.now)) (2 ^ 64 - 1) }
    ensures dummies { result.dummies ≡ most_dummies (lowered_program program.now).procedures }
{
    let starts = &emission.procedures[..program.procedures.len()];
    told(program, &emission.lines, &emission.routines, starts)
}

/// How many cells, names and levels of values there are at most in each state of each run: none where 2 to the 48 cells or names may
/// be there.
///
/// The needs of activations are those that `f3_sizes::needs::needs` told of the same program.
pub fn stack_needs(program: &Program, emission: &Emission, needs: &Needs) -> Option<StackNeeds>
    requires code { code_in program.now emission.now ≡ program_code (lowered_program program.now) }
    requires deep { AreNeverDeeper (lowered_program program.now) needs.now }
    ensures told { MatchOption result (AreTooMany program.now needs.now) (λ x. AreTold program.now needs.now x) }
    ensures enough { IfSome result (λ x. AreEnough program.now x) }
{
    let deepest = greatest_of(&needs.procedures);
    let cells = deepest.saturating_mul(1000).saturating_add(needs.main);
    let found = names_of(program, emission);
    let names = found.all.saturating_mul(1001);
    let opened = found.at_once.saturating_mul(1001);
    let kept = found.dummies.saturating_mul(1000).saturating_add(opened);
    if cells >= MOST || names >= MOST || kept >= MOST {
        return None;
    }
    Some(StackNeeds {
        cells,
        names,
        kept,
        levels: cells + 2001,
    })
}
