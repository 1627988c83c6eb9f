//! The procedures of all units.

ghost use Rattle.std.specs.Prelude.{◌≡◌, ◌+◌, ◌++◌, ◌<◌, ◌^◌, ℕ, List, map, length, IfOk, OnOk};
ghost use Rattle.std.specs.List.{flat_map};
ghost use Rattle.f3_scopes.specs.Outlines.{Scope};
ghost use Rattle.f3_tree.specs.Tree as trees;
ghost use Rattle.f3_sites.specs.Sites.{site_of};
ghost use Rattle.f3_associates.specs.Known.{IsSettled};
ghost use Rattle.f3_type_rules.specs.Associates.{constructs_of_block};
ghost use Rattle.f3_type_rules.specs.Members.{members_from, numbered, units_from};
ghost use Rattle.f3_types.specs.Members.{AreFirsts};
ghost use Rattle.f3_types.specs.Units.{AreNumbers};
ghost use Rattle.f3_elaboration.specs.Declarations as elaborated;
ghost use Rattle.f3_elaboration.specs.DeclaredViews.{procedure_view};
ghost use Rattle.f3_elaboration.specs.Units as units;
ghost use Rattle.f3_program_numbers.specs.Fitting.{Fits, AllFit, MembersFit};
ghost use Rattle.f3_elaborate.specs.Inner.Knows.{Knows};
ghost use Rattle.f3_elaborate.specs.Inner.Units.{procedures_in};

use crate::procedures::{Home, procedure};
use f3_declared::scenery::Scenery;
use f3_inside::state::State;
use f3_natures::constructs::constructs;
use f3_program::program::Procedure;
use f3_tree::program as tree;
use std::alloc::{AllocError, Global};

/// What does not change along the units of a program.
#[derive(Clone, Copy)]
pub struct Walk<'a> {
    pub scenery: Scenery<'a>,
    /// The entity that each scope declares first.
    pub firsts: &'a [usize],
}

/// Adds the procedures of a unit, of which the first has this scope.
fn add_members(
    alloc: Global,
    walk: Walk<'_>,
    state: &mut State<'_>,
    found: &mut Vec<Procedure>,
    unit: usize,
    scope: usize,
    list: &[tree::Procedure],
) -> Result<(), AllocError>
    requires settled { IsSettled (site_of state.old.site) }
    requires fit { MembersFit walk.firsts.now scope (map trees.procedure_view list.now) }
    ensures found { OnOk result ((w : elaborated.Whole) (scopes : List Scope) (e : ℕ) → Knows walk.entry.scenery state.old w → AreFirsts scopes walk.entry.firsts.now → map procedure_view found.new.items ≡ map procedure_view found.old.items ++ map (units.procedure w unit) (members_from scopes e scope (map trees.procedure_view list.now))) }
    ensures knows { OnOk result ((w : elaborated.Whole) → Knows walk.entry.scenery state.old w → Knows walk.entry.scenery state.new w) }
    ensures settled { OnOk result (IsSettled (site_of state.new.site)) }
{
    let firsts = walk.firsts;
    let mut next = scope;
    for given in list {
        let home = Home {
            unit,
            scope: next,
            first: firsts[next],
        };
        let (made, behind) = procedure(alloc, walk.scenery, state, home, given)?;
        found.push(made)?;
        next = behind;
    }
    Ok(())
}

/// The scope of the first procedure of a unit: it stands behind that of the unit and those of its constructs.
fn members_scope(alloc: Global, scope: usize, unit: &tree::Unit) -> Result<usize, AllocError>
    requires { scope + 1 + length (constructs_of_block (trees.unit_view unit.now).body) < 2 ^ 64 }
    ensures { IfOk result (λ n. n ≡ scope + 1 + length (constructs_of_block (trees.unit_view unit.now).body)) }
{
    let constructs = constructs(alloc, &unit.body)?;
    Ok(scope + 1 + constructs.len())
}

/// Adds the procedures of a unit, which has this scope.
fn add_unit(
    alloc: Global,
    walk: Walk<'_>,
    state: &mut State<'_>,
    found: &mut Vec<Procedure>,
    scope: usize,
    unit: &tree::Unit,
) -> Result<(), AllocError>
    requires settled { IsSettled (site_of state.old.site) }
    requires fit { Fits walk.firsts.now scope (trees.unit_view unit.now) }
    ensures found { OnOk result ((w : elaborated.Whole) (scopes : List Scope) → Knows walk.entry.scenery state.old w → AreFirsts scopes walk.entry.firsts.now → map procedure_view found.new.items ≡ map procedure_view found.old.items ++ procedures_in w (numbered scopes scope (trees.unit_view unit.now))) }
    ensures knows { OnOk result ((w : elaborated.Whole) → Knows walk.entry.scenery state.old w → Knows walk.entry.scenery state.new w) }
    ensures settled { OnOk result (IsSettled (site_of state.new.site)) }
{
    let start = members_scope(alloc, scope, unit)?;
    let list = unit.procedures.as_slice();
    add_members(alloc, walk, state, found, scope, start, list)?;
    Ok(())
}

/// The procedures of a program, in the order of their places. The scopes of its units are given.
///
/// # Errors
///
/// Where memory runs out: then the state is of no use any more.
pub fn procedures(
    alloc: Global,
    walk: Walk<'_>,
    state: &mut State<'_>,
    numbers: &[usize],
    list: &[tree::Unit],
) -> Result<Vec<Procedure>, AllocError>
    requires settled { IsSettled (site_of state.old.site) }
    requires fit { AllFit walk.firsts.now numbers.now (map trees.unit_view list.now) }
    requires numbers { length numbers.now ≡ length list.now }
    ensures found { IfOk result (λ v. (w : elaborated.Whole) (scopes : List Scope) → Knows walk.entry.scenery state.old w → AreFirsts scopes walk.entry.firsts.now → AreNumbers scopes numbers.now (map trees.unit_view list.now) → map procedure_view v.items ≡ flat_map (procedures_in w) (units_from scopes 0 (map trees.unit_view list.now))) }
    ensures knows { OnOk result ((w : elaborated.Whole) → Knows walk.entry.scenery state.old w → Knows walk.entry.scenery state.new w) }
    ensures settled { OnOk result (IsSettled (site_of state.new.site)) }
{
    let mut found = Vec::new(alloc);
    for number in 0..list.len() {
        add_unit(
            alloc,
            walk,
            state,
            &mut found,
            numbers[number],
            &list[number],
        )?;
    }
    Ok(found)
}
