//! Statements as the grammar sees them, and what is seen in all of them.

ghost use Rattle.std.specs.Prelude.{◌≡◌};
ghost use Rattle.f3_words.specs.Lines.{broken, seen_of, nothing_seen};

use crate::item::Item;
use crate::names::Names;
use f3_places::source::Place;
use f3_rules::breaks::Break;
use f3_rules::rule::Rule;
use std::alloc::Global;

/// A statement.
#[derive(Drop)]
pub struct Line {
    /// Its tokens.
    pub items: Vec<Item>,
    /// The first break of S3 or S4 among them.
    pub fault: Option<Break>,
}

/// The names and the character constants of a program.
#[derive(Drop)]
pub struct Tables {
    pub names: Names,
    /// The name that was looked up last, in lower case.
    pub(crate) name: String,
    /// The character constants in the order written, each doubled quote in them once.
    pub texts: Vec<Vec<u8>>,
}

/// A break of the first phase.
pub fn broken(rule: Rule, place: Place) -> Break
    ensures { result ≡ broken rule place }
{
    Break {
        phase: 1,
        place,
        rule,
        name: None,
    }
}

impl Tables {
    /// No name and no constant.
    pub fn new(alloc: Global) -> Self
        ensures { seen_of result ≡ nothing_seen }
    {
        Tables {
            names: Names::new(alloc),
            name: String::new(alloc),
            texts: Vec::new(alloc),
        }
    }
}
