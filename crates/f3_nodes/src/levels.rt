//! Levels of nodes by which most steps are seen to lie on no cycle.
//!
//! Strong components in the order in which users come first (Kosaraju's algorithm) give such levels in linear time.
//! They are tested before they are used.

ghost use Rattle.std.specs.Prelude.{◌≡◌, ◌+◌, ◌^◌, ◌<◌, IfOk, IfSome};
ghost use Rattle.f3_nodes.specs.Levels.{level, may_lead, may_lead_to, all_rise, AreLevels};

use crate::graph::empty_graph;
use std::alloc::{AllocError, Global};

/// The level of a node; 0 where the list has none.
fn level(levels: &[usize], node: usize) -> usize
    ensures { result ≡ level levels.now node }
{
    levels.get(node).copied().unwrap_or(0)
}

/// Whether a node may lead to another, by their levels.
pub fn may_lead(levels: &[usize], from: usize, to: usize) -> bool
    ensures { result ≡ may_lead levels.now from to }
{
    level(levels, from) <= level(levels, to)
}

/// Whether a node may lead to all of these, by their levels.
fn may_lead_to(levels: &[usize], from: usize, targets: &[usize]) -> bool
    ensures { result ≡ may_lead_to levels.now from targets.now }
{
    for target in targets {
        if !may_lead(levels, from, *target) {
            return false;
        }
    }
    true
}

/// Whether the level falls along no step.
fn all_rise(levels: &[usize], uses: &[Vec<usize>]) -> bool
    ensures { result ≡ all_rise levels.now 0 uses.now }
{
    for (node, targets) in uses.iter().enumerate() {
        if !may_lead_to(levels, node, targets) {
            return false;
        }
    }
    true
}

/// A use of a node by its number, if there is one.
fn use_of(uses: &[Vec<usize>], node: usize, at: usize) -> Option<usize>
    ensures { IfSome result (λ next. at + 1 < 2 ^ 64) }
{
    match uses.get(node) {
        Some(list) => list.get(at).copied(),
        None => None,
    }
}

/// Marks a node, and tells whether it was not marked.
fn mark(marks: &mut [bool], node: usize) -> bool {
    match marks.get_mut(node) {
        Some(mark) => {
            let is_new = !*mark;
            *mark = true;
            is_new
        }
        None => false,
    }
}

/// Walks from a node to all that are not marked, and notes each when it leaves it.
fn walk(
    alloc: Global,
    uses: &[Vec<usize>],
    root: usize,
    marks: &mut [bool],
    left: &mut Vec<usize>,
) -> Result<(), AllocError> {
    let mut stack = Vec::new(alloc);
    if mark(marks, root) {
        stack.push((root, 0))?;
    }
    for _step in 0..u64::MAX {
        match stack.pop() {
            Some((node, at)) => match use_of(uses, node, at) {
                Some(next) => {
                    stack.push((node, at + 1))?;
                    if mark(marks, next) {
                        stack.push((next, 0))?;
                    }
                }
                None => left.push(node)?,
            },
            None => return Ok(()),
        }
    }
    Ok(())
}

/// The nodes in the order in which a walk leaves them.
fn left_in_turn(alloc: Global, uses: &[Vec<usize>]) -> Result<Vec<usize>, AllocError> {
    let mut marks = Vec::new(alloc);
    for _node in uses {
        marks.push(false)?;
    }
    let mut left = Vec::new(alloc);
    for root in 0..uses.len() {
        walk(alloc, uses, root, &mut marks, &mut left)?;
    }
    Ok(left)
}

/// Adds a node as the user of others.
fn add_user(users: &mut [Vec<usize>], node: usize, uses: &[usize]) -> Result<(), AllocError> {
    for target in uses {
        if let Some(list) = users.get_mut(*target) {
            list.push(node)?;
        }
    }
    Ok(())
}

/// For each node those that use it.
fn reversed(alloc: Global, uses: &[Vec<usize>]) -> Result<Vec<Vec<usize>>, AllocError> {
    let mut users = empty_graph(alloc, uses.len())?;
    for (node, targets) in uses.iter().enumerate() {
        add_user(&mut users, node, targets)?;
    }
    Ok(users)
}

/// Gives a level to nodes that have none, and notes them.
fn raise(
    levels: &mut [usize],
    level: usize,
    nodes: &[usize],
    todo: &mut Vec<usize>,
) -> Result<(), AllocError> {
    for node in nodes {
        if let Some(old) = levels.get_mut(*node) {
            if *old == 0 {
                *old = level;
                todo.push(*node)?;
            }
        }
    }
    Ok(())
}

/// Gives a level to a node and to all that reach it, where they have none.
fn flood(
    alloc: Global,
    users: &[Vec<usize>],
    root: usize,
    level: usize,
    levels: &mut [usize],
) -> Result<(), AllocError> {
    let mut todo = Vec::new(alloc);
    raise(levels, level, &[root], &mut todo)?;
    for _step in 0..u64::MAX {
        match todo.pop() {
            Some(node) => if let Some(list) = users.get(node) {
                raise(levels, level, list, &mut todo)?;
            },
            None => return Ok(()),
        }
    }
    Ok(())
}

/// The strong components by numbers that rise from users to used ones.
fn components(alloc: Global, uses: &[Vec<usize>]) -> Result<Vec<usize>, AllocError> {
    let left = left_in_turn(alloc, uses)?;
    let users = reversed(alloc, uses)?;
    let mut levels = Vec::new(alloc);
    for _node in uses {
        levels.push(0)?;
    }
    let mut level = 1;
    for root in left.iter().rev() {
        flood(alloc, &users, *root, level, &mut levels)?;
        level = level.saturating_add(1);
    }
    Ok(levels)
}

/// Levels of nodes such that none leads to one on a lower level; where the list is too short a level is 0.
pub fn levels(alloc: Global, uses: &[Vec<usize>]) -> Result<Vec<usize>, AllocError>
    ensures { IfOk result (λ levels. AreLevels uses.now levels.items) }
{
    let levels = components(alloc, uses)?;
    if all_rise(&levels, uses) {
        Ok(levels)
    } else {
        Ok(Vec::new(alloc))
    }
}
