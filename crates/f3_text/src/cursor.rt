//! Places in sources, with the bytes behind them.

ghost use Rattle.std.specs.Prelude.{◌+◌, ◌<◌, ◌^◌, length};

/// A place in a source, and the bytes from there to its end.
#[derive(Clone, Copy)]
pub struct Cursor<'a> {
    /// The source, from 1.
    pub file: usize,
    /// The line, from 1.
    pub line: u32,
    /// The column, from 1.
    pub column: u32,
    pub rest: &'a [u8],
    ghost counted: { 0 < column },
    ghost small: { line + column + length rest.now < 2 ^ 32 },
}
