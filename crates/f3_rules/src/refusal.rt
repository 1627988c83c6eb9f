//! Refusals of sources.

ghost use Rattle.std.specs.Prelude.{◌≡◌, ◌++◌, IfOk, string_bytes};
ghost use Rattle.f3_rules.specs.Line.{file_name, named, line_of};

use crate::rule::Rule;
use f3_places::source::{Place, Source};
use std::alloc::{AllocError, Global};

/// The first break of a rule in a list of sources.
#[derive(Drop)]
pub struct Refusal {
    pub place: Place,
    pub rule: Rule,
    /// The identifier at the place in lower case, where the table says that the refusal names it; else empty.
    pub name: String,
}

/// The name of a source by its number, from 1; empty where there is no such source.
fn file_name(sources: &[Source], file: usize) -> &str
    ensures { result.now ≡ file_name sources.now file }
{
    if file == 0 {
        return "";
    }
    match sources.get(file - 1) {
        Some(source) => source.name.as_str(),
        None => "",
    }
}

/// What stands before a name in a line: a colon and a blank, and nothing where there is no name.
fn before_name(name: &str) -> &'static str
    ensures { result.now ++ name.now ≡ named name.now }
{
    if name.is_empty() { "" } else { ": " }
}

/// The line of a refusal, without a line feed: `file:line:column: D1 protected variable: name`, the file by its
/// source's name, which is empty where the file is not among the sources, and `: name` only where there is a name.
/// AllocError where the host's memory has no room.
#[tactic(auto, unfolding(crate::specs::Line::line_of))]
pub fn render(alloc: Global, sources: &[Source], refusal: &Refusal) -> Result<String, AllocError>
    ensures { IfOk result (λ line. string_bytes line ≡ line_of sources.now refusal.now) }
{
    let file = file_name(sources, refusal.place.file);
    let line = refusal.place.line;
    let column = refusal.place.column;
    let identifier = refusal.rule.identifier();
    let words = refusal.rule.words();
    let name = refusal.name.as_str();
    let before_name = before_name(name);
    format!(in alloc; "{file}:{line}:{column}: {identifier} {words}{before_name}{name}")
}
