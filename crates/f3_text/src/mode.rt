//! How a statement stands while it is read.

ghost use Rattle.std.specs.Prelude.{◌≤◌};

use crate::cursor::Cursor;
use crate::letter::Quoting;

/// How the next letter of a statement stands.
#[derive(Clone, Copy)]
pub struct Mode {
    /// To character constants.
    pub quoting: Quoting,
    /// To parentheses and brackets: how many are open.
    pub depth: u32,
    ghost shallow: { depth ≤ 64 },
}

/// What the next letter of a statement does.
#[derive(Clone, Copy)]
pub enum Step<'a> {
    /// The statement goes on there.
    On(Mode, Cursor<'a>),
    /// It separates statements.
    Separated,
    /// It ends the text of its line.
    Ended,
}
