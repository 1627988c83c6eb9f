//! A reader that gives the statements of sources one by one.

ghost use Rattle.std.specs.Prelude.{◌+◌, ◌<◌, ◌≤◌, ◌^◌, length};

use crate::cursor::Cursor;
use crate::sources::{enter, next_statement};
use crate::statement::{RawStatement, TextFault};
use f3_places::source::Source;
use std::alloc::Global;

/// The statements of a list of sources, one by one.
#[derive(Drop)]
pub struct Statements<'a> {
    /// The sources behind the one that is read.
    pub(crate) sources: &'a [Source],
    /// What is left of the source that is read: in column 1 a line begins, elsewhere a statement behind a `;`.
    pub(crate) cursor: Cursor<'a>,
    /// How many bytes the sources behind may have.
    pub(crate) room: usize,
    ghost files: { cursor.file + length sources.now < 2 ^ 64 },
    ghost limit: { room ≤ 16777216 },
}

impl<'a> Statements<'a> {
    ghost use Rattle.std.specs.Prelude.{◌≡◌, IfOk, IfSome};
    ghost use Rattle.f3_text.specs.Statements.{cut_of};
    ghost use Rattle.f3_text.specs.Reader.{bytes_of, left, Nexts, IsStatement};

    /// How many bytes all sources together may have (own rule).
    pub const LIMIT: usize = 16_777_216;

    /// A reader before the first statement.
    pub fn new(sources: &'a [Source]) -> Statements<'a>
        ensures { left result ≡ cut_of (bytes_of sources.now) }
    {
        Statements {
            sources,
            cursor: Cursor {
                file: 0,
                line: 1,
                column: 1,
                rest: &[],
            },
            room: Self::LIMIT,
        }
    }

    /// The next statement; None where there are no more. At a fault of the text the reader stays, and where memory
    /// runs out nothing is read.
    pub fn next(&mut self, alloc: Global) -> Result<Option<RawStatement>, TextFault>
        ensures given { Nexts result (left self.old) (left self.new) }
        ensures shaped { IfOk result (λ o. IfSome o IsStatement) }
    {
        loop {
            if let Some((statement, behind)) = next_statement(alloc, self.cursor)? {
                self.cursor = behind;
                return Ok(Some(statement));
            }
            match enter(alloc, self.cursor.file, self.room, self.sources)? {
                Some(reader) => *self = reader,
                None => return Ok(None),
            }
        }
    }
}
