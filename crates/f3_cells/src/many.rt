//! Several cells of one kind on top.

ghost use Rattle.f3_code.specs.Machine.{argument_of, choice_of, extent_of, selector_of};
ghost use Rattle.f3_cells.specs.Cells.{passed_of, chosen_of, association_of};
ghost use Rattle.f3_cells.specs.Popped.{PoppedMany, PoppedOne, extent_in};

use crate::cell::{Association, Cell, Chosen, Passed};
use crate::stacks::let_go;
use crate::state::Stop;
use std::alloc::Global;

/// An argument on top, which is taken.
#[inline(always)]
fn pop_argument(stack: &mut Vec<Cell>) -> Option<Passed>
    ensures { PoppedOne passed_of argument_of result stack.old.items stack.new.items }
{
    match stack.pop() {
        Some(Cell::Argument(it)) => Some(it),
        Some(other) => {
            let_go(other);
            None
        }
        None => None,
    }
}

/// Arguments (ISO/IEC 1539-1:2004, 12.4.1), so many, which are taken; the one on top is the last. `Stop::Stuck` where there are not so many.
pub fn pop_arguments(
    alloc: Global,
    stack: &mut Vec<Cell>,
    count: usize,
) -> Result<Vec<Passed>, Stop>
    ensures { PoppedMany passed_of argument_of count result stack.old.items stack.new.items }
{
    let mut found = Vec::with_capacity(alloc, count)?;
    for _i in 0..count {
        match pop_argument(stack) {
            Some(it) => found.push(it)?,
            None => return Err(Stop::Stuck),
        }
    }
    found.reverse();
    Ok(found)
}

/// A subscript or triplet on top, which is taken.
fn pop_choice(stack: &mut Vec<Cell>) -> Option<Chosen>
    ensures { PoppedOne chosen_of choice_of result stack.old.items stack.new.items }
{
    match stack.pop() {
        Some(Cell::Choice(it)) => Some(it),
        Some(other) => {
            let_go(other);
            None
        }
        None => None,
    }
}

/// Subscripts and triplets (6.2.2), so many, which are taken; the one on top is the last. `Stop::Stuck` where there are not so many.
pub fn pop_choices(alloc: Global, stack: &mut Vec<Cell>, count: usize) -> Result<Vec<Chosen>, Stop>
    ensures { PoppedMany chosen_of choice_of count result stack.old.items stack.new.items }
{
    let mut found = Vec::new(alloc);
    for _i in 0..count {
        match pop_choice(stack) {
            Some(it) => found.push(it)?,
            None => return Err(Stop::Stuck),
        }
    }
    found.reverse();
    Ok(found)
}

/// A dimension on top, which is taken.
fn pop_extent(stack: &mut Vec<Cell>) -> Option<(i64, Option<u64>)>
    ensures { PoppedOne extent_in extent_of result stack.old.items stack.new.items }
{
    match stack.pop() {
        Some(Cell::Extent(lower, turns)) => Some((lower, turns)),
        Some(other) => {
            let_go(other);
            None
        }
        None => None,
    }
}

/// Dimensions of an ALLOCATE, each with its lower bound and how many subscripts follow its first, if there is one (6.3.1), so many, which are taken; the one on top is the last. `Stop::Stuck` where there are not so many.
pub fn pop_extents(
    alloc: Global,
    stack: &mut Vec<Cell>,
    count: usize,
) -> Result<Vec<(i64, Option<u64>)>, Stop>
    ensures { PoppedMany extent_in extent_of count result stack.old.items stack.new.items }
{
    let mut found = Vec::new(alloc);
    for _i in 0..count {
        match pop_extent(stack) {
            Some(it) => found.push(it)?,
            None => return Err(Stop::Stuck),
        }
    }
    found.reverse();
    Ok(found)
}

/// A selector on top, which is taken.
fn pop_selector(stack: &mut Vec<Cell>) -> Option<Association>
    ensures { PoppedOne association_of selector_of result stack.old.items stack.new.items }
{
    match stack.pop() {
        Some(Cell::Selector(it)) => Some(it),
        Some(other) => {
            let_go(other);
            None
        }
        None => None,
    }
}

/// Selectors of an ASSOCIATE (8.1.4), so many, which are taken; the one on top is the last. `Stop::Stuck` where there are not so many.
pub fn pop_selectors(
    alloc: Global,
    stack: &mut Vec<Cell>,
    count: usize,
) -> Result<Vec<Association>, Stop>
    ensures { PoppedMany association_of selector_of count result stack.old.items stack.new.items }
{
    let mut found = Vec::new(alloc);
    for _i in 0..count {
        match pop_selector(stack) {
            Some(it) => found.push(it)?,
            None => return Err(Stop::Stuck),
        }
    }
    found.reverse();
    Ok(found)
}
