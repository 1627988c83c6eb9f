//! Breaks at names and at keywords.

ghost use Rattle.std.specs.Prelude.{◌≡◌, [], ◌∷◌, if◌then◌else◌};
ghost use Rattle.f3_rules.specs.Least.{Least, first_of};
ghost use Rattle.f3_scope_rules.specs.ScopeBreaks.{at, at_keyword};
ghost use Rattle.f3_scope_rules.specs.Inner.Rows.{If};

use f3_breaks::{at, at_keyword};
use f3_places::source::Place;
use f3_rules::breaks::Break;
use f3_rules::rule::Rule;
use f3_tree::expression::Name;

/// The break of a rule at a name, where it is broken.
#[tactic(auto, using(crate::proofs::Passing::least_if))]
pub fn break_at(is_broken: bool, rule: Rule, name: &Name) -> Option<Break>
    ensures found { result ≡ first_of (if is_broken then at rule name.now ∷ [] else []) }
    ensures least { Least result (If is_broken (at rule name.now)) }
{
    if is_broken {
        Some(at(4, rule, *name))
    } else {
        None
    }
}

/// The break of a rule at a keyword, where it is broken.
#[tactic(auto, using(crate::proofs::Passing::least_if))]
pub fn break_at_keyword(is_broken: bool, rule: Rule, place: &Place) -> Option<Break>
    ensures found { result ≡ first_of (if is_broken then at_keyword rule place.now ∷ [] else []) }
    ensures least { Least result (If is_broken (at_keyword rule place.now)) }
{
    if is_broken {
        Some(at_keyword(4, rule, *place))
    } else {
        None
    }
}
