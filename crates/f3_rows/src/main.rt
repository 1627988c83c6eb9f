//! What users see of f3, and what its passes make of small texts, case by case: runs the cases of standard input and those of
//! the file `passes`, and compares.
#![tactic(auto)]

mod folder;
mod planning;
mod running;

use crate::running::is_as_expected;
use f3_pass_rows::cases::compared;
use f3_row_cases::cases::read;
use std::fs;
use std::io::{self, Read, Write};

fn main(rt: HostRuntime) -> io::Result<()> {
    let alloc = rt.alloc();
    let passes = compared(alloc, fs::read_to_string(&rt, "passes")?.as_str())?;
    print!(rt; "{}", passes.lines)?;
    let mut bytes = Vec::new(alloc);
    rt.stdin().read_to_end(&mut bytes)?;
    let cases = read(alloc, bytes.as_slice())?;
    let mut passed = passes.passed;
    let mut failed = passes.failed;
    for case in &cases {
        if is_as_expected(alloc, case)? {
            passed = passed.saturating_add(1);
        } else {
            println!(rt; "{}: not as expected", case.name)?;
            failed = failed.saturating_add(1);
        }
    }
    println!(rt; "{passed} cases as expected, {failed} not")?;
    Ok(())
}
