//! Sources in a text.

use f3_places::source::Source;
use std::alloc::{AllocError, Global};

/// Adds a source to a list.
fn add_source(
    alloc: Global,
    sources: &mut Vec<Source>,
    name: &str,
    text: &str,
) -> Result<(), AllocError> {
    sources.push(Source {
        name: String::from_str(alloc, name)?,
        bytes: Vec::from_slice(alloc, text.as_bytes())?,
    })?;
    Ok(())
}

/// The sources of a text: a.f90, and behind a line `b.f90:` a second one.
pub fn sources(alloc: Global, text: &str) -> Result<Vec<Source>, AllocError> {
    let (first, second) = text.split_once("b.f90:\n").unwrap_or((text, ""));
    let mut sources = Vec::new(alloc);
    add_source(alloc, &mut sources, "a.f90", first)?;
    if !second.is_empty() {
        add_source(alloc, &mut sources, "b.f90", second)?;
    }
    Ok(sources)
}
