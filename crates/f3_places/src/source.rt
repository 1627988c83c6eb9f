//! Sources, and places in them.

/// A source text.
#[derive(Drop)]
pub struct Source {
    /// The name by which refusals and errors call it.
    pub name: String,
    /// Its bytes, whatever they are.
    pub bytes: Vec<u8>,
}

/// A place in a list of sources. All three count from 1, columns in bytes.
#[derive(Clone, Copy, PartialEq, Eq, Debug)]
pub struct Place {
    /// The source by its number in the list.
    pub file: usize,
    /// The line: 1, and 1 more for each line feed before the place.
    pub line: u32,
    /// The column: 1, and 1 more for each byte of the line before the place.
    pub column: u32,
}
