//! The order of program units: used modules first, or the first break of the rules on units.
#![tactic(auto)]

mod breaks;
mod links;
mod unit;

ghost use Rattle.std.specs.Prelude.{◌≡◌, ℕ, true, Some, length, map, string_bytes, IfOk};
ghost use Rattle.f3_rules.specs.Least.{Least};
ghost use Rattle.f3_tree.specs.Tree.{view};
ghost use Rattle.f3_graph.specs.declared.CheckFault.TheVariants.{Memory};
ghost use Rattle.f3_graph.specs.Breaks.{UnitBreaks};
ghost use Rattle.f3_graph.specs.Faults.{fault_of_text};
ghost use Rattle.f3_graph.specs.Inner.Found.{Finds};
ghost use Rattle.f3_graph.specs.Inner.Links.{links_of, Inside, IsGraph, CyclesIn};
ghost use Rattle.f3_nodes.specs.Nodes.{Ordered, InRange, Leads};
ghost use Rattle.f3_graph.specs.Order.{Orders, IsRefusal, NoOrderNoCycle, numbers_of, text_of};
ghost use Rattle.f3_graph.specs.Units.{nodes_of};
ghost use Rattle.f3_graph.specs.Inner.Views.{nodes_view};

use crate::breaks::{first_cycle, first_missing, main_programs, name_twice};
use crate::links::{Link, graph, links};
use crate::unit::{UnitUses, unit_uses};
use f3_nodes::walk::used_first;
use f3_rules::breaks::{Break, earlier};
use f3_rules::refusal::Refusal;
use f3_text::statement::TextFault;
use f3_tree::program::Program;
use indexmap::IndexSet;
use std::alloc::{AllocError, Global};
use std::fmt;
use thiserror::Error;

/// Why a program is not taken.
#[derive(Drop, Error)]
pub enum CheckFault {
    /// A rule is broken; this is the first break.
    #[error("a rule is broken")]
    Refused(Refusal),
    /// A growth of the host's memory was refused.
    #[error("want of memory")]
    Memory,
}

impl fmt::Debug for CheckFault {
    fn fmt<W: fmt::Write>(&self, f: &mut fmt::Formatter<W>) -> fmt::Result {
        write!(f, "{self}")
    }
}

impl From<AllocError> for CheckFault {
    ghost from_gives = { λ _ e. e ≡ Memory };

    fn from(_fault: AllocError) -> CheckFault {
        CheckFault::Memory
    }
}

impl From<TextFault> for CheckFault {
    ghost from_gives = { λ fault e. e ≡ fault_of_text fault };

    fn from(fault: TextFault) -> CheckFault {
        match fault {
            TextFault::Refused(refusal) => CheckFault::Refused(refusal),
            TextFault::Memory => CheckFault::Memory,
        }
    }
}

/// A program unit by its number: the units are numbered from 0 in the order of their places.
#[derive(Clone, Copy, PartialEq, Eq, Debug)]
pub struct UnitId {
    pub number: usize,
}

/// All units of a program in an order in which used modules come first.
#[derive(Drop)]
pub struct UnitOrder {
    pub units: Vec<UnitId>,
}

/// The text of a name by its number among these; empty where it has none.
fn name_of(alloc: Global, names: &IndexSet<String>, symbol: usize) -> Result<String, AllocError>
    ensures { IfOk result (λ text. string_bytes text ≡ text_of (map string_bytes names.now.keys) (Some symbol)) }
{
    match names.get_index(symbol) {
        Some(name) => String::from_str(alloc, name.as_str()),
        None => Ok(String::new(alloc)),
    }
}

/// The refusal of a break, where these are the texts of all names. AllocError where the host's memory has no room for
/// the name.
pub fn refusal_of(
    alloc: Global,
    names: &IndexSet<String>,
    found: Break,
) -> Result<Refusal, AllocError>
    ensures { IfOk result (λ refusal. IsRefusal (map string_bytes names.now.keys) found refusal) }
{
    let name = match found.name {
        Some(symbol) => name_of(alloc, names, symbol)?,
        None => String::new(alloc),
    };
    Ok(Refusal {
        place: found.place,
        rule: found.rule,
        name,
    })
}

/// The first USE that closes a cycle, where there may be one.
fn cycles(
    alloc: Global,
    graph: &[Vec<usize>],
    links: &[Link],
    has_order: bool,
) -> Result<Option<Break>, AllocError>
    requires range { InRange graph.now }
    requires inside { Inside links.now (length graph.now) }
    requires steps { IsGraph links.now (length graph.now) graph.now }
    requires order { has_order ≡ true → (u : ℕ) → Leads graph.now u u → ⊥ }
    ensures { IfOk result (λ first. Least first (CyclesIn graph.now links.now)) }
{
    if has_order {
        Ok(None)
    } else {
        first_cycle(alloc, graph, links)
    }
}

/// The first break of the rules on units, where these are the units of the program, their links and the links' graph.
fn first_break(
    alloc: Global,
    program: &Program,
    units: &[UnitUses],
    links: &[Link],
    graph: &[Vec<usize>],
    has_order: bool,
) -> Result<Option<Break>, AllocError>
    requires units { nodes_view units.now ≡ nodes_of (view program.now) }
    requires links { links.now ≡ links_of (nodes_view units.now) }
    requires steps { IsGraph links.now (length units.now) graph.now }
    requires order { has_order ≡ true → (u : ℕ) → Leads graph.now u u → ⊥ }
    ensures { IfOk result (λ first. Least first (UnitBreaks (view program.now))) }
{
    let names = name_twice(alloc, units)?;
    let modules = earlier(
        first_missing(links),
        cycles(alloc, graph, links, has_order)?,
    );
    Ok(earlier(earlier(names, modules), main_programs(program, units)))
}

/// The numbers as units.
fn unit_order(alloc: Global, numbers: &[usize]) -> Result<UnitOrder, AllocError>
    ensures { IfOk result (λ order. numbers_of order ≡ numbers.now) }
{
    let mut units = Vec::new(alloc);
    for number in numbers {
        units.push(UnitId { number: *number })?;
    }
    Ok(UnitOrder { units })
}

/// The order of the units, or their first break, where these are the units of the program.
fn examine(
    alloc: Global,
    program: &Program,
    units: &[UnitUses],
) -> Result<Result<Vec<usize>, Break>, AllocError>
    requires { nodes_view units.now ≡ nodes_of (view program.now) }
    ensures { IfOk result (λ answer. Finds (view program.now) answer) }
{
    let links = links(alloc, units)?;
    let graph = graph(alloc, units.len(), &links)?;
    let found = used_first(alloc, &graph)?;
    match first_break(alloc, program, units, &links, &graph, found.is_some())? {
        Some(first) => Ok(Err(first)),
        None => match found {
            Some(order) => Ok(Ok(order)),
            None => unreachable!(),
        },
    }
}

/// The units of a program in an order in which used modules come first, where no rule on units is broken.
/// Refused with the first break of the rules on units (phase 2); Memory where a growth of the host's memory is refused.
pub fn order(alloc: Global, program: &Program) -> Result<UnitOrder, CheckFault>
    ensures { Orders (view program.now) result }
{
    let units = unit_uses(alloc, &program.units)?;
    match examine(alloc, program, &units)? {
        Ok(numbers) => Ok(unit_order(alloc, &numbers)?),
        Err(first) => {
            let refusal = refusal_of(alloc, &program.names, first)?;
            Err(CheckFault::Refused(refusal))
        }
    }
}

/// Where there is an order of the units no module reaches itself.
pub fn no_order_no_cycle()
    ensures { NoOrderNoCycle }
{}
