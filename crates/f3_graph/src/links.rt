//! The USE statements of a program as steps from unit to unit.

ghost use Rattle.std.specs.Prelude.{◌≡◌, ◌<◌, ◌++◌, ℕ, [], map, length, nat_eq, option_to_list, if◌then◌else◌, ◌==◌, IfOk, OnOk};
ghost use Rattle.indexmap.specs.IndexMap.{get};
ghost use Rattle.f3_graph.specs.Inner.Links.{module_of, links_from, links_of, is_module, home, Inside, IsGraph};
ghost use Rattle.f3_nodes.specs.Nodes.{targets_of};
ghost use Rattle.f3_graph.specs.Inner.Views.{nodes_view};

use crate::unit::UnitUses;
use f3_nodes::graph::empty_graph;
use f3_tree::expression::Name;
use f3_tree::program::UnitKind;
use indexmap::IndexMap;
use std::alloc::{AllocError, Global};

/// A USE statement. Units are numbered from 0.
#[derive(Clone, Copy, Debug)]
pub struct Link {
    /// The unit in which it stands; for a module the last one of its name, since modules of one name count as one.
    pub home: usize,
    /// The last module of the name, if there is one.
    pub target: Option<usize>,
    /// The name in it.
    pub name: Name,
}

fn is_module(kind: UnitKind) -> bool
    ensures { result ≡ is_module kind }
{
    match kind {
        UnitKind::Module => true,
        UnitKind::Program => false,
    }
}

/// The last module of each name, by its number.
fn modules(alloc: Global, units: &[UnitUses]) -> Result<IndexMap<usize, usize>, AllocError>
    ensures { IfOk result (λ m. (n : ℕ) → get nat_eq m n ≡ module_of (nodes_view units.now) n) }
{
    let mut modules = IndexMap::new(alloc);
    for (number, unit) in units.iter().enumerate() {
        if is_module(unit.kind) {
            modules.insert(unit.name.symbol, number)?;
        }
    }
    Ok(modules)
}

/// The number that stands for a unit.
fn home(modules: &IndexMap<usize, usize>, number: usize, unit: &UnitUses) -> usize
    ensures { result ≡ home unit.now.kind (get nat_eq modules.now unit.now.name.symbol) number }
{
    match unit.kind {
        UnitKind::Module => modules.get(&unit.name.symbol).copied().unwrap_or(number),
        UnitKind::Program => number,
    }
}

/// Adds the USE statements of one unit.
fn add_links(
    links: &mut Vec<Link>,
    modules: &IndexMap<usize, usize>,
    home: usize,
    uses: &[Name],
) -> Result<(), AllocError>
    ensures { OnOk result (links.new.items ≡ links.old.items ++ map (λ x. record { home = home; target = get nat_eq modules.now x.symbol; name = x }) uses.now) }
{
    for name in uses {
        links.push(Link {
            home,
            target: modules.get(&name.symbol).copied(),
            name: *name,
        })?;
    }
    Ok(())
}

/// The USE statements of all units, where the map has the last module of each name.
fn links_by(
    alloc: Global,
    units: &[UnitUses],
    modules: &IndexMap<usize, usize>,
) -> Result<Vec<Link>, AllocError>
    ensures { IfOk result (λ v. v.items ≡ links_from (get nat_eq modules.now) 0 (nodes_view units.now)) }
{
    let mut links = Vec::new(alloc);
    for (number, unit) in units.iter().enumerate() {
        add_links(&mut links, modules, home(modules, number, unit), &unit.uses)?;
    }
    Ok(links)
}

/// The USE statements of all units.
pub fn links(alloc: Global, units: &[UnitUses]) -> Result<Vec<Link>, AllocError>
    ensures { IfOk result (λ v. v.items ≡ links_of (nodes_view units.now)) }
{
    let modules = modules(alloc, units)?;
    links_by(alloc, units, &modules)
}

/// Adds the step of a USE statement to a graph.
fn connect(graph: &mut Vec<Vec<usize>>, link: &Link) -> Result<(), AllocError>
    requires { link.now.home < length graph.old.items }
    ensures long { OnOk result (length graph.new.items ≡ length graph.old.items) }
    ensures steps { OnOk result ((a : ℕ) → targets_of graph.new.items a ≡ targets_of graph.old.items a ++ (if link.now.home == a then option_to_list link.now.target else [])) }
{
    if let Some(target) = link.target {
        graph[link.home].push(target)?;
    }
    Ok(())
}

/// For each of so many units those that it uses.
pub fn graph(alloc: Global, count: usize, links: &[Link]) -> Result<Vec<Vec<usize>>, AllocError>
    requires { Inside links.now count }
    ensures { IfOk result (λ g. IsGraph links.now count g.items) }
{
    let mut graph = empty_graph(alloc, count)?;
    for link in links {
        connect(&mut graph, link)?;
    }
    Ok(graph)
}
