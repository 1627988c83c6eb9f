//! Breaks that are met, of which the first is kept.

ghost use Rattle.std.specs.Prelude.{◌≡◌, List, [], ◌∷◌};
ghost use Rattle.f3_kinds.specs.Rows.{unless, at_place, at_name};
ghost use Rattle.f3_typed_parts.specs.Noted.{noted};

use f3_places::source::Place;
use f3_rules::breaks::{Break, earlier};
use f3_rules::rule::Rule;
use f3_tree::expression::Name;

/// Notes a break.
#[tactic(auto, unfolding(crate::specs::Noted::noted))]
pub fn note(first: &mut Option<Break>, found: Break)
    ensures { first.new ≡ noted first.old (found ∷ []) }
{
    *first = earlier(*first, Some(found));
}

/// Notes a break where something does not hold.
#[tactic(auto, using(crate::proofs::Noting::noted_none))]
pub fn unless(first: &mut Option<Break>, holds: bool, found: Break)
    ensures { first.new ≡ noted first.old (unless holds found) }
{
    if !holds {
        note(first, found);
    }
}

/// The break of a rule at a place.
pub fn at_place(phase: u32, rule: Rule, place: Place) -> Break
    ensures { result ≡ at_place phase rule place }
{
    Break {
        phase,
        place,
        rule,
        name: None,
    }
}

/// The break of a rule at a name.
pub fn at_name(phase: u32, rule: Rule, name: Name) -> Break
    ensures { result ≡ at_name phase rule name }
{
    Break {
        phase,
        place: name.place,
        rule,
        name: Some(name.symbol),
    }
}
