//! The code of a program, as text.

ghost use Rattle.std.specs.Prelude.{◌≡◌, IfOk};
ghost use Rattle.f3_compile.specs.Compiled.{program_of};
ghost use Rattle.f3_compile.specs.Listings.{IsListing};
ghost use Rattle.f3_compile.specs.Compiles.{ChecksAndLists};

use crate::compile::compile;
use crate::compiled::Compiled;
use f3_gen_laws::generate;
use f3_graph::CheckFault;
use f3_listing::listing;
use f3_places::source::Source;
use std::alloc::{AllocError, Global};

/// The text of the code that `run` runs: a line for each instruction, its number from 0, its name and its operands in decimal
/// (own rule).
///
/// `AllocError` where memory runs out.
pub fn code(alloc: Global, compiled: &Compiled) -> Result<String, AllocError>
    ensures { IfOk result (IsListing (program_of compiled.now)) }
{
    let emission = generate(alloc, &compiled.program)?;
    let text = listing(alloc, &emission.lines);
    drop(emission);
    text
}

/// Compiles, and answers the text of the code: the answers of `compile` where it refuses, and else those of `code`.
pub fn check_and_code(alloc: Global, sources: &[Source]) -> Result<String, CheckFault>
    ensures { ChecksAndLists sources.now result }
{
    let compiled = compile(alloc, sources)?;
    let text = code(alloc, &compiled);
    drop(compiled);
    match text {
        Ok(text) => Ok(text),
        Err(_) => Err(CheckFault::Memory),
    }
}
