//! f3 checks, compiles and runs libraries of Fortran modules.
#![tactic(auto)]

use f3_command::program;
use f3_files::files::Disk;
use f3_output::output::Output;
use std::env;
use std::io::{self, BufWriter, ErrorKind, Write};
use std::process::ExitCode;

/// What is said of words that are not UTF-8: what clap says of such.
const NOT_TEXT: &[u8] =
    b"error: invalid UTF-8 was detected in one or more arguments\n\nUsage: f3 <COMMAND>\n\nFor more information, try '--help'.\n";

/// The status with which the program ends; an error where its words are not UTF-8, or memory for them or for its output was refused.
fn status(rt: &HostRuntime) -> io::Result<u8> {
    let alloc = rt.alloc();
    let words: Vec<String> = env::args(rt)?.collect(alloc)?;
    let mut output = Output::new(BufWriter::new(alloc, io::writer(rt))?);
    let mut errors = Output::new(rt.stderr());
    Ok(program::f3(
        alloc,
        words.as_slice(),
        &Disk { rt },
        &mut output,
        &mut errors,
    ))
}

fn main(rt: HostRuntime) -> ExitCode {
    match status(&rt) {
        Ok(status) => ExitCode::from(status),
        Err(error) if error.kind() == ErrorKind::InvalidData => {
            let _ = rt.stderr().write_all(NOT_TEXT);
            ExitCode::from(2)
        }
        Err(_) => {
            let _ = rt.stderr().write_all(b"want of memory\n");
            ExitCode::from(5)
        }
    }
}
