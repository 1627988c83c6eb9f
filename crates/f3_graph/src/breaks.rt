//! The first breaks of the rules on program units.

ghost use Rattle.std.specs.Prelude.{◌≡◌, ◌⊎◌, ◌<◌, ℕ, [], ◌∷◌, Some, ◌&&◌, if◌then◌else◌, length, IfOk};
ghost use Rattle.std.specs.List.{flat_map};
ghost use Rattle.f3_rules.specs.Least.{Least, first_of};
ghost use Rattle.f3_graph.specs.Breaks.{at, NameTwice, NoMainProgram, MainProgramAgain};
ghost use Rattle.f3_graph.specs.Inner.Links.{missing, Cycles, CyclesIn, Inside, IsGraph, may_return, may_be_first};
ghost use Rattle.f3_nodes.specs.Nodes.{InRange};
ghost use Rattle.f3_graph.specs.Inner.Passes.{is_main};
ghost use Rattle.f3_graph.specs.Units.{nodes_of};
ghost use Rattle.f3_graph.specs.Inner.Views.{nodes_view};
ghost use Rattle.f3_tree.specs.Tree.{view};

use crate::links::Link;
use crate::unit::UnitUses;
use f3_nodes::levels::{levels, may_lead};
use f3_nodes::search::is_reached;
use f3_rules::breaks::{Break, earlier, is_before};
use f3_rules::rule::Rule;
use f3_tree::expression::Name;
use f3_tree::program::{Program, UnitKind};
use indexmap::IndexSet;
use std::alloc::{AllocError, Global};

/// The break of a rule at a name.
fn at(rule: Rule, name: &Name) -> Break
    ensures { result ≡ at rule name.now }
{
    f3_breaks::at(2, rule, *name)
}

/// The break of a rule at a name, where it is broken.
fn break_if(is_broken: bool, rule: Rule, name: &Name) -> Option<Break>
    ensures { result ≡ first_of (if is_broken then at rule name.now ∷ [] else []) }
{
    if is_broken {
        Some(at(rule, name))
    } else {
        None
    }
}

/// The first name of a unit that an earlier unit has.
pub fn name_twice(alloc: Global, units: &[UnitUses]) -> Result<Option<Break>, AllocError>
    ensures { IfOk result (λ first. Least first (NameTwice (nodes_view units.now))) }
{
    let mut seen = IndexSet::new(alloc);
    let mut first = None;
    for unit in units {
        let was_seen = seen.contains(&unit.name.symbol);
        first = earlier(first, break_if(was_seen, Rule::U1, &unit.name));
        seen.insert(unit.name.symbol)?;
    }
    Ok(first)
}

fn is_main(kind: UnitKind) -> bool
    ensures { result ≡ is_main kind }
{
    match kind {
        UnitKind::Module => false,
        UnitKind::Program => true,
    }
}

/// The first break of the rule that there is one main program.
pub fn main_programs(program: &Program, units: &[UnitUses]) -> Option<Break>
    requires { nodes_view units.now ≡ nodes_of (view program.now) }
    ensures { Least result (λ b. NoMainProgram (view program.now) b ⊎ MainProgramAgain (nodes_of (view program.now)) b) }
{
    let mut had_one = false;
    let mut first = None;
    for unit in units {
        let is_main = is_main(unit.kind);
        first = earlier(first, break_if(had_one & is_main, Rule::U4, &unit.name));
        had_one |= is_main;
    }
    if had_one {
        first
    } else {
        Some(Break {
            phase: 2,
            place: program.end,
            rule: Rule::U4,
            name: None,
        })
    }
}

fn missing_at(link: &Link) -> Option<Break>
    ensures { result ≡ first_of (missing link.now) }
{
    match link.target {
        Some(_) => None,
        None => Some(at(Rule::U2, &link.name)),
    }
}

/// The first USE of a name that no module has.
pub fn first_missing(links: &[Link]) -> Option<Break>
    ensures { result ≡ first_of (flat_map (λ l. missing l) links.now) }
{
    let mut first = None;
    for link in links {
        first = earlier(first, missing_at(link));
    }
    first
}

/// Whether a break at a USE may come before what was found.
fn may_be_first(link: &Link, first: Option<Break>) -> bool
    ensures { result ≡ may_be_first link.now.name first }
{
    match first {
        Some(found) => is_before(at(Rule::U3, &link.name), found),
        None => true,
    }
}

/// Whether the target of a USE may lead back to its unit, by their levels.
fn may_return(levels: &[usize], link: &Link) -> bool
    ensures { result ≡ may_return levels.now link.now }
{
    match link.target {
        Some(target) => may_lead(levels, target, link.home),
        None => false,
    }
}

/// Whether a USE is to be searched: its target may lead back, and what was found does not come before it.
fn is_open(levels: &[usize], link: &Link, first: Option<Break>) -> bool
    ensures { result ≡ (may_return levels.now link.now && may_be_first link.now.name first) }
{
    may_return(levels, link) && may_be_first(link, first)
}

fn cycle_at(alloc: Global, graph: &[Vec<usize>], link: &Link) -> Result<Option<Break>, AllocError>
    requires range { InRange graph.now }
    requires home { link.now.home < length graph.now }
    requires target { (t : ℕ) → link.now.target ≡ Some t → t < length graph.now }
    ensures { IfOk result (λ found. Least found (Cycles graph.now link.now)) }
{
    match link.target {
        Some(target) => {
            let is_broken = is_reached(alloc, graph, target, link.home)?;
            Ok(break_if(is_broken, Rule::U3, &link.name))
        }
        None => Ok(None),
    }
}

/// The first USE in a module whose module is, or reaches, the one it stands in.
pub fn first_cycle(
    alloc: Global,
    graph: &[Vec<usize>],
    links: &[Link],
) -> Result<Option<Break>, AllocError>
    requires range { InRange graph.now }
    requires inside { Inside links.now (length graph.now) }
    requires steps { IsGraph links.now (length graph.now) graph.now }
    ensures { IfOk result (λ first. Least first (CyclesIn graph.now links.now)) }
{
    let levels = levels(alloc, graph)?;
    let mut first = None;
    for link in links {
        if is_open(&levels, link, first) {
            first = earlier(first, cycle_at(alloc, graph, link)?);
        }
    }
    Ok(first)
}
