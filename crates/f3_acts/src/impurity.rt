//! What a PURE procedure or a function may not do.

ghost use Rattle.std.specs.Prelude.{◌≡◌, [], if◌then◌else◌};
ghost use Rattle.f3_tree.specs.Statements.{action_view};
ghost use Rattle.f3_kinds.specs.Things.{meaning_of};
ghost use Rattle.f3_type_rules.specs.Definitions.{called_impure, impure};
ghost use Rattle.f3_typed_parts.specs.Known.{nature_of};
ghost use Rattle.f3_typed_parts.specs.Noted.{noted};
ghost use Rattle.f3_sites.specs.Sites.{site_of};
ghost use Rattle.f3_acts.specs.Inner.Rows.{is_pure_nature, is_pure_meaning};

use f3_access::lookup;
use f3_kinds::things::Thing;
use f3_lookups::lookup::Lookup;
use f3_places::source::Place;
use f3_rules::breaks::Break;
use f3_rules::rule::Rule;
use f3_sites::site::Site;
use f3_tree::expression::Name;
use f3_tree::statement::Action;
use f3_typed_parts::noted::{at_name, at_place, note, unless};

fn is_pure_thing(thing: &Thing) -> bool
    ensures { result ≡ is_pure_nature (nature_of thing.now) }
{
    match thing {
        Thing::Subroutine(signature) => signature.is_pure,
        Thing::Constant(_) => true,
        Thing::Variable(_) => true,
        Thing::Type(_) => true,
        Thing::Function(_, _) => true,
    }
}

/// Whether what a name means is no subroutine, or one that is PURE.
#[tactic(auto, using(crate::proofs::Rows::intrinsic_pure))]
fn is_pure(site: &Site<'_>, symbol: usize) -> bool
    ensures { result ≡ is_pure_meaning (meaning_of (site_of site.now).context symbol) }
{
    match lookup(site.known.tables, site.at.scope, symbol) {
        Lookup::One(number) => match site.known.things.get(number) {
            Some(thing) => is_pure_thing(thing),
            None => true,
        },
        Lookup::Several => true,
        Lookup::Nothing => true,
    }
}

/// Notes a CALL of a subroutine that is not PURE.
#[tactic(auto, using(crate::proofs::Rows::impure_call))]
fn called(site: &Site<'_>, first: &mut Option<Break>, name: Name)
    ensures { first.new ≡ noted first.old (called_impure name (meaning_of (site_of site.now).context name.symbol)) }
{
    let pure = is_pure(site, name.symbol);
    unless(first, pure, at_name(7, Rule::D6, name));
}

#[tactic(auto, using(f3_typed_parts::proofs::Noting::noted_none))]
fn effects(site: &Site<'_>, first: &mut Option<Break>, place: Place, action: &Action)
    ensures { first.new ≡ noted first.old (impure (site_of site.now).context place (action_view action.now)) }
{
    match action {
        Action::Print(_) => note(first, at_place(7, Rule::D6, place)),
        Action::Stop(_) => note(first, at_place(7, Rule::D6, place)),
        Action::Call(name, _) => called(site, first, *name),
        Action::Assign(_, _) => {}
        Action::Allocate(_, _) => {}
        Action::Deallocate(_, _) => {}
        Action::Return => {}
        Action::Cycle => {}
        Action::Exit => {}
        Action::Continue => {}
    }
}

/// Notes an action that a PURE procedure or a function may not do, where it stands in one (12.6): a PRINT, a STOP, a CALL of a
/// subroutine that is not PURE (D6).
#[tactic(auto, using(f3_typed_parts::proofs::Noting::noted_none))]
pub fn impure(site: &Site<'_>, first: &mut Option<Break>, place: Place, action: &Action)
    ensures noted { first.new ≡ noted first.old (if (site_of site.now).is_pure then impure (site_of site.now).context place (action_view action.now) else []) }
{
    if site.is_pure {
        effects(site, first, place, action);
    }
}
