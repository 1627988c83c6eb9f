//! Breaks at names and at keywords.

ghost use Rattle.std.specs.Prelude.{◌≡◌};
ghost use Rattle.f3_breaks.specs.At.{at, at_keyword};

use f3_places::source::Place;
use f3_rules::breaks::Break;
use f3_rules::rule::Rule;
use f3_tree::expression::Name;

/// The break of a rule of a phase at a name.
pub fn at(phase: u32, rule: Rule, name: Name) -> Break
    ensures { result ≡ at phase rule name }
{
    Break {
        phase,
        place: name.place,
        rule,
        name: Some(name.symbol),
    }
}

/// The break of a rule of a phase at a keyword.
pub fn at_keyword(phase: u32, rule: Rule, place: Place) -> Break
    ensures { result ≡ at_keyword phase rule place }
{
    Break {
        phase,
        place,
        rule,
        name: None,
    }
}
