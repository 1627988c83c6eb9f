//! Breaks of rules, and the first of them.

ghost use Rattle.std.specs.Prelude.{◌≡◌, Option};
ghost use Rattle.f3_rules.specs.Rule.{row_of};
ghost use Rattle.f3_rules.specs.Least.{is_before, earlier_of, FirstIsLeast};

use crate::rule::Rule;
use f3_places::source::Place;

/// A rule is broken at a place.
#[derive(Clone, Copy, PartialEq, Eq, Debug)]
pub struct Break {
    /// The phase of the table that finds it, 1 to 7: no later phase is read where one has a break.
    pub phase: u32,
    pub place: Place,
    pub rule: Rule,
    /// The identifier at the place, by its number among the program's names, where the table says
    /// that the refusal names it.
    pub name: Option<usize>,
}

/// The row of a rule in the table, from 0.
#[tactic(auto, unfolding(crate::specs::Rule::row_of))]
fn row(rule: Rule) -> usize
    ensures { result ≡ row_of rule }
{
    rule as usize
}

/// Whether one break comes before another: by phase, then place, then the order of the table.
#[tactic(auto, unfolding(crate::specs::Least::is_before))]
pub fn is_before(a: Break, b: Break) -> bool
    ensures { result ≡ is_before a b }
{
    if a.phase != b.phase {
        return a.phase < b.phase;
    }
    if a.place.file != b.place.file {
        return a.place.file < b.place.file;
    }
    if a.place.line != b.place.line {
        return a.place.line < b.place.line;
    }
    if a.place.column != b.place.column {
        return a.place.column < b.place.column;
    }
    row(a.rule) < row(b.rule)
}

/// The earlier of two breaks, where there are any.
pub fn earlier(a: Option<Break>, b: Option<Break>) -> Option<Break>
    ensures { result ≡ earlier_of a b }
{
    match (a, b) {
        (Some(x), Some(y)) => { if is_before(y, x) { Some(y) } else { Some(x) } }
        (Some(x), None) => Some(x),
        (None, found) => found,
    }
}

/// The first of a list of breaks is one of them, and none of them comes before it.
pub fn first_is_least()
    ensures { FirstIsLeast }
{}
