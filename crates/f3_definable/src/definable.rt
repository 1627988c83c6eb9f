//! Definitions of what an expression designates.

ghost use Rattle.std.specs.Prelude.{◌≡◌, ◌++◌, Option, None, nat_eq, ◌==◌};
ghost use Rattle.std.specs.List.{flat_map, list_any};
ghost use Rattle.f3_kinds.specs.Rows.{unless, at_place};
ghost use Rattle.f3_rules.specs.declared.rule.Rule.TheVariants.{D3};
ghost use Rattle.f3_type_rules.specs.Definitions.{at_first, is_in, protected_rows, intent_rows, active_rows, pure_rows, holder_rows, link_rows, form_rows, definition_rows};
ghost use Rattle.f3_typed_parts.specs.Noted.{noted};
ghost use Rattle.f3_sites.specs.Sites.{site_of};

use f3_kinds::said::{Form, Said};
use f3_rules::breaks::Break;
use f3_rules::rule::Rule;
use f3_sites::site::{Chain, Site};
use f3_tree::declaration::Intent;
use f3_type_rules::definition::Holder;
use f3_typed_parts::noted::{at_place, note, unless};

/// The break of a rule at the first name of a designator.
fn at_first(rule: Rule, said: &Said) -> Break
    ensures { result ≡ at_first rule said.now }
{
    Break {
        phase: 7,
        place: said.place,
        rule,
        name: said.lead,
    }
}

fn is_in(intent: Option<Intent>) -> bool
    ensures { result ≡ is_in intent }
{
    match intent {
        Some(Intent::In) => true,
        Some(Intent::Out) => false,
        Some(Intent::InOut) => false,
        None => false,
    }
}

/// Notes a protected variable outside its module.
fn protected(site: &Site<'_>, first: &mut Option<Break>, said: &Said, holder: Holder)
    ensures { first.new ≡ noted first.old (protected_rows (site_of site.now) said.now holder) }
{
    let open = !holder.is_protected || holder.unit == site.at.unit;
    unless(first, open, at_first(Rule::D1, said));
}

/// Notes a dummy argument that is INTENT(IN).
fn intent(first: &mut Option<Break>, said: &Said, holder: Holder)
    ensures { first.new ≡ noted first.old (intent_rows said.now holder) }
{
    let read_only = is_in(holder.intent);
    unless(first, !read_only, at_first(Rule::D2, said));
}

/// Notes a variable of the host or of a used module in a PURE procedure or a function.
fn pure(site: &Site<'_>, first: &mut Option<Break>, said: &Said, holder: Holder)
    ensures { first.new ≡ noted first.old (pure_rows (site_of site.now) said.now holder) }
{
    let own = !site.is_pure || holder.scope == site.body;
    unless(first, own, at_first(Rule::D5, said));
}

fn is_among(entities: &[usize], entity: usize) -> bool
    ensures { result ≡ list_any (nat_eq entity) entities.now }
{
    entities.iter().any(|other| entity == *other)
}

#[tactic(auto, using(crate::proofs::Chains::active_any))]
fn is_active(site: &Site<'_>, entity: usize) -> bool
    ensures { result ≡ list_any (nat_eq entity) (site_of site.now).active }
{
    is_among(&site.active, entity)
}

/// Notes a DO variable inside its loop.
fn active(site: &Site<'_>, first: &mut Option<Break>, said: &Said, entity: usize)
    ensures { first.new ≡ noted first.old (active_rows (site_of site.now) said.now entity) }
{
    let inside = is_active(site, entity);
    unless(first, !inside, at_first(Rule::D4, said));
}

fn holder_of(site: &Site<'_>, entity: usize) -> Option<Holder>
    ensures { result ≡ (site_of site.now).holder entity }
{
    match site.holders.get(entity) {
        Some(holder) => *holder,
        None => None,
    }
}

/// Notes what a declared variable forbids.
#[tactic(auto, using(f3_typed_parts::proofs::Noting::noted_more))]
fn held(site: &Site<'_>, first: &mut Option<Break>, said: &Said, holder: Holder)
    ensures { first.new ≡ noted first.old (holder_rows (site_of site.now) said.now holder) }
{
    protected(site, first, said, holder);
    intent(first, said, holder);
    pure(site, first, said, holder);
}

/// Notes what a link of a chain forbids.
#[tactic(auto, using(f3_typed_parts::proofs::Noting::noted_more, f3_typed_parts::proofs::Noting::noted_none))]
fn link(site: &Site<'_>, first: &mut Option<Break>, said: &Said, entity: usize)
    ensures { first.new ≡ noted first.old (link_rows (site_of site.now) said.now entity) }
{
    active(site, first, said, entity);
    if let Some(holder) = holder_of(site, entity) {
        held(site, first, said, holder);
    }
}

fn links(site: &Site<'_>, first: &mut Option<Break>, said: &Said, entities: &[usize])
    ensures { first.new ≡ noted first.old (flat_map (link_rows (site_of site.now) said.now) entities.now) }
{
    for entity in entities {
        link(site, first, said, *entity);
    }
}

/// Notes what the chain of an associate name forbids.
#[tactic(auto, using(f3_typed_parts::proofs::Noting::noted_more))]
fn chain(site: &Site<'_>, first: &mut Option<Break>, said: &Said, chain: &Chain)
    ensures { first.new ≡ noted first.old (unless chain.now.ends (at_place 7 D3 said.now.place) ++ flat_map (link_rows (site_of site.now) said.now) chain.now.links.items) }
{
    unless(first, chain.ends, at_place(7, Rule::D3, said.place));
    links(site, first, said, &chain.links);
}

/// Notes what forbids the definition of a variable that begins with this entity.
#[tactic(auto, using(f3_typed_parts::proofs::Noting::noted_more, f3_typed_parts::proofs::Noting::noted_none))]
fn variable(site: &Site<'_>, first: &mut Option<Break>, said: &Said, entity: usize)
    ensures { first.new ≡ noted first.old (unless ((site_of site.now).chain entity).ends (at_place 7 D3 said.now.place) ++ flat_map (link_rows (site_of site.now) said.now) ((site_of site.now).chain entity).links) }
{
    match site.chains.get(&entity) {
        Some(links) => chain(site, first, said, links),
        None => link(site, first, said, entity),
    }
}

fn form(site: &Site<'_>, first: &mut Option<Break>, said: &Said, form: Form)
    ensures { first.new ≡ noted first.old (form_rows (site_of site.now) said.now form) }
{
    match form {
        Form::Variable(entity) => variable(site, first, said, entity),
        Form::Computed => note(first, at_place(7, Rule::D3, said.place)),
        Form::Constant => note(first, at_place(7, Rule::D3, said.place)),
    }
}

/// Notes where what an expression designates may not be defined (16.5.7): a protected variable outside its module (D1), a dummy
/// argument that is INTENT(IN) (D2), an expression or a named constant (D3), an active DO variable (D4), and in a PURE procedure or a
/// function a variable of the host or of a used module (D5); for an associate name, as its chain of selectors says. Of an expression
/// that breaks a rule of phase 6 nothing is said.
#[tactic(auto, using(f3_typed_parts::proofs::Noting::noted_none))]
pub fn definition(site: &Site<'_>, first: &mut Option<Break>, said: &Said)
    ensures noted { first.new ≡ noted first.old (definition_rows (site_of site.now) said.now) }
{
    if let Some(has) = said.has {
        form(site, first, said, has.form);
    }
}
