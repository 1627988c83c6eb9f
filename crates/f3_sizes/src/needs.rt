//! How many cells the stacks of activations need.

ghost use Rattle.std.specs.Prelude.{◌≡◌, ◌≤◌, ◌+◌, ◌*◌, ◌^◌, ◌<◌, IfOk, length, map, sum};
ghost use Rattle.f3_code.specs.Lower.{lowered_program};
ghost use Rattle.f3_code.specs.Code.{program_code};
ghost use Rattle.f3_gen_values.specs.Emission.{code_in};
ghost use Rattle.f3_sizes.specs.Part.{IsDepth};
ghost use Rattle.f3_sizes.specs.Parts.{AreAnswers, AreCodeParts, AreDepths, AreParts, IsPartAt, first_of, part_lines};
ghost use Rattle.f3_sizes.specs.Needs.{AreNeverDeeper, AreNotPadded};

use crate::answer::Needs;
use crate::part::depth;
use f3_gen_values::emission::Emission;
use f3_gen_values::line::Line;
use f3_program::program::Program;
use std::alloc::{AllocError, Global};

/// The first line of parts that begin at these, or the line behind them.
fn first_line(starts: &[usize], end: usize) -> usize
    ensures { result ≡ first_of starts.now end }
{
    if starts.is_empty() { end } else { starts[0] }
}

/// The greatest number of cells at the lines of the part of a number, which begins with so many.
fn depth_at(
    alloc: Global,
    lines: &[Line],
    starts: &[usize],
    end: usize,
    first: usize,
    at: usize,
) -> Result<usize, AllocError>
    requires there { at < length starts.now }
    requires part { IsPartAt lines.now starts.now end first at }
    requires low { first ≤ 1 }
    ensures { IfOk result (IsDepth (part_lines lines.now starts.now end at) first) }
{
    let behind = first_line(&starts[at + 1..], end);
    depth(alloc, &lines[starts[at]..behind], first)
}

/// The greatest number of cells at the lines of each of some parts, which stand one behind another up to a line, and begin with so many.
fn depths(
    alloc: Global,
    lines: &[Line],
    starts: &[usize],
    end: usize,
    first: usize,
) -> Result<Vec<usize>, AllocError>
    requires parts { AreParts lines.now starts.now end first }
    requires low { first ≤ 1 }
    ensures { IfOk result (λ v. AreDepths lines.now starts.now end first (length starts.now) v.items) }
{
    let mut found = Vec::new(alloc);
    for at in 0..starts.len() {
        found.push(depth_at(alloc, lines, starts, end, first, at)?)?;
    }
    Ok(found)
}

/// All together.
fn together(cells: &[usize]) -> usize
    requires { sum cells.now < 2 ^ 64 }
    ensures { result ≡ sum cells.now }
{
    cells.iter().sum()
}

/// So many more for each.
fn raised(alloc: Global, cells: &[usize], more: usize) -> Result<Vec<usize>, AllocError>
    requires { sum cells.now + more < 2 ^ 64 }
    ensures { IfOk result (λ v. v.items ≡ map (λ n. n + more) cells.now) }
{
    let mut found = Vec::new(alloc);
    for one in cells {
        found.push(*one + more)?;
    }
    Ok(found)
}

/// What activations need, by the lines of the code, and by those with which routines and procedures begin.
fn told(
    alloc: Global,
    lines: &[Line],
    routines: &[usize],
    procedures: &[usize],
) -> Result<Needs, AllocError>
    requires { AreCodeParts lines.now routines.now procedures.now }
    ensures { IfOk result (AreAnswers lines.now routines.now procedures.now) }
{
    let behind_routines = first_line(procedures, lines.len());
    let behind_main = first_line(routines, behind_routines);
    let main = depth(alloc, &lines[..behind_main], 0)?;
    let of_routines = depths(alloc, lines, routines, behind_routines, 1)?;
    let of_procedures = depths(alloc, lines, procedures, lines.len(), 0)?;
    let more = together(&of_routines);
    Ok(Needs {
        main: main + more,
        procedures: raised(alloc, &of_procedures, more)?,
    })
}

/// How many cells the stack of an activation of the main program and of each procedure needs: no activation ever has more.
///
/// Only lines to which ways lead count, each with the cells that stand there, and for each type the same of its routine.
/// `AllocError` where the host has no memory for what is noted of lines.
pub fn needs(alloc: Global, program: &Program, emission: &Emission) -> Result<Needs, AllocError>
    requires { code_in program.now emission.now ≡ program_code (lowered_program program.now) }
    ensures never_deeper { IfOk result (AreNeverDeeper (lowered_program program.now)) }
    ensures not_padded { IfOk result (AreNotPadded (lowered_program program.now)) }
{
    let procedures = &emission.procedures[..program.procedures.len()];
    told(alloc, &emission.lines, &emission.routines, procedures)
}
