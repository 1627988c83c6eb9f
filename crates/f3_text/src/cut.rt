//! Source texts cut into statements.

ghost use Rattle.std.specs.Prelude.{◌≡◌, ◌≤◌, length, OnOk};
ghost use Rattle.f3_text.specs.Statements.{cut_of};
ghost use Rattle.f3_text.specs.Reader.{bytes_of};
ghost use Rattle.f3_text.specs.Cutting.{CutsTo, IsCutShort};
ghost use Rattle.f3_text.specs.Ends.{end_of};
ghost use Rattle.f3_text.specs.Examples.{CutsSo};

use crate::reader::Statements;
use crate::statement::{Cut, RawStatement, TextFault};
use f3_places::source::{Place, Source};
use std::alloc::{AllocError, Global};

/// The statements before a fault, and that fault.
fn cut_short(statements: Vec<RawStatement>, fault: TextFault) -> Result<Cut, AllocError>
    ensures { IsCutShort result statements.items fault }
{
    match fault {
        TextFault::Refused(refusal) => Ok(Cut {
            statements,
            fault: Some(refusal),
        }),
        TextFault::Memory => Err(AllocError),
    }
}

/// The statements of sources before the first fault of their text, and that fault.
pub fn statements(alloc: Global, sources: &[Source]) -> Result<Cut, AllocError>
    ensures { CutsTo result (cut_of (bytes_of sources.now)) }
{
    let mut reader = Statements::new(sources);
    let mut statements = Vec::new(alloc);
    loop {
        match reader.next(alloc) {
            Ok(Some(statement)) => statements.push(statement)?,
            Ok(None) => return Ok(Cut {
                statements,
                fault: None,
            }),
            Err(fault) => return cut_short(statements, fault),
        }
    }
}

/// The place just past the last byte of a source, which the limit on sources lets be examined.
pub fn source_end(file: usize, bytes: &[u8]) -> Place
    requires { length bytes.now ≤ 16777216 }
    ensures { result ≡ end_of file bytes.now }
{
    let mut line: u32 = 1;
    let mut column: u32 = 1;
    for byte in bytes {
        if *byte == b'\n' {
            line += 1;
            column = 1;
        } else {
            column += 1;
        }
    }
    Place { file, line, column }
}

/// The definitions, computed on small texts.
pub fn cuts_so()
    ensures { CutsSo }
{}
