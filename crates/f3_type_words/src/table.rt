//! The table of a derived type.

/// Of a derived type, how many words an object of it has, and at which of these, counted from 0, each component begins, in the order of
/// their declaration (ISO/IEC 1539-1:2004, 4.5.1).
#[derive(Drop)]
pub struct TypeTable {
    pub words: usize,
    pub offsets: Vec<usize>,
}
