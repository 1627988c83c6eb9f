//! The ASSOCIATE construct.

ghost use Rattle.std.specs.Prelude.{◌≡◌, ◌+◌, ◌<◌, ◌^◌, ◌++◌, ◌∷◌, [], IfOk, OnOk, length, map};
ghost use Rattle.f3_places.specs.declared.source.Place.{Place};
ghost use Rattle.f3_meaning_whole.specs.Value as m;
ghost use Rattle.f3_meaning_whole.specs.Exec as x;
ghost use Rattle.f3_meaning_whole.specs.Exec.{associates, held_by};
ghost use Rattle.f3_code.specs.declared.instruction.Instruction.TheVariants.{Associate, EndAssociate};
ghost use Rattle.f3_data.specs.Values.{values_of};
ghost use Rattle.f3_data.specs.References.{reference_of, references_of};
ghost use Rattle.f3_cells.specs.declared.scene.Scene.{Scene};
ghost use Rattle.f3_cells.specs.Cells.{association_of};
ghost use Rattle.f3_cells.specs.Follows.{Does, DoesThere};
ghost use Rattle.f3_call_steps.specs.Inner.Associating.{Associates, Within, LeftWith};

use crate::heres::within_associate;
use f3_cells::cell::{Association, Cell, Flow, Here};
use f3_cells::many::pop_selectors;
use f3_cells::stacks::{pop_going, pop_level, pop_objects};
use f3_cells::state::{State, Stop};
use f3_data::copies;
use f3_data::reference::{Reference, Right};
use f3_data::store::Root;
use f3_data::value::Value;
use f3_located::dummies::associate as associate_object;
use f3_located::names::to_value;
use std::alloc::{AllocError, Global};
use std::mem::replace;

/// A copy of the value of a selector that is held.
fn hold(alloc: Global, values: &mut Vec<Value>, selector: &Association) -> Result<(), AllocError>
    ensures { OnOk result (values_of values.new.items ≡ values_of values.old.items ++ held_by (association_of selector.now ∷ [])) }
{
    match selector {
        Association::Holds(_, value) => {
            values.push(copies::value(alloc, value)?)?;
            Ok(())
        }
        Association::Means(_) => Ok(()),
    }
}

/// Copies of the values that are held.
fn held_by(alloc: Global, selectors: &[Association]) -> Result<Vec<Value>, AllocError>
    ensures { IfOk result (λ vs. values_of vs.items ≡ held_by (map association_of selectors.now)) }
{
    let mut values = Vec::new(alloc);
    for selector in selectors {
        hold(alloc, &mut values, selector)?;
    }
    Ok(values)
}

/// The object of an associate name whose selector is an object (ISO/IEC 1539-1:2004, 8.1.4.3).
fn object_of(alloc: Global, object: &Reference) -> Result<Reference, AllocError>
    ensures { IfOk result (λ r. reference_of r ≡ x.associated (reference_of object.now)) }
{
    let mut copy = copies::reference(alloc, object)?;
    associate_object(&mut copy);
    Ok(copy)
}

/// The objects of associate names, where the values that are held stand on a level, from a slot on (8.1.4.3), behind others.
fn add_objects(
    alloc: Global,
    objects: &mut Vec<Reference>,
    selectors: &[Association],
    level: usize,
    mut slot: usize,
    unit: usize,
) -> Result<(), AllocError>
    requires { slot + length selectors.now < 2 ^ 63 }
    ensures { OnOk result (references_of objects.new.items ≡ references_of objects.old.items ++ associates (map association_of selectors.now) level slot unit) }
{
    for selector in selectors {
        match selector {
            Association::Holds(of, value) => {
                objects.push(to_value(
                    alloc,
                    Root::Local(level, slot),
                    *of,
                    Right::Read,
                    unit,
                    value,
                )?)?;
                slot += 1;
            }
            Association::Means(object) => objects.push(object_of(alloc, object)?)?,
        }
    }
    Ok(())
}

/// On within an ASSOCIATE: what was around it, and its objects, are kept.
fn go_within(
    state: &mut State,
    inner: Here,
    level: usize,
    objects: Vec<Reference>,
) -> Result<(), AllocError>
    requires { state.old.pc < 2 ^ 63 }
    ensures { OnOk result (Within inner level objects.items state.old state.new) }
{
    let outer = replace(&mut state.here, inner);
    state.stack.push(Cell::Level(level, objects))?;
    state.stack.push(Cell::Outside(outer))?;
    state.advance();
    Ok(())
}

/// An ASSOCIATE with these selectors begins.
fn begin_associate(
    alloc: Global,
    state: &mut State,
    selectors: Vec<Association>,
) -> Result<(), AllocError>
    requires { state.old.pc < 2 ^ 63 }
    ensures { OnOk result (Associates selectors.items state.old state.new) }
{
    let level = state.store.levels.len();
    let mut objects = Vec::new(alloc);
    add_objects(alloc, &mut objects, &selectors, level, 0, state.here.unit)?;
    let held = held_by(alloc, &selectors)?;
    state.store.enter(held)?;
    let inner = within_associate(alloc, &state.here, &objects)?;
    go_within(state, inner, level, objects)
}

/// An ASSOCIATE with so many selectors begins (8.1.4).
#[inline(never)]
pub fn associate(alloc: Global, state: &mut State, count: usize) -> Result<(), Stop>
    requires { state.old.pc < 2 ^ 63 }
    ensures { (scene : Scene) (v : m.Value) (place : Place) → DoesThere scene (Associate count) v place result state.old state.new }
{
    let selectors = match pop_selectors(alloc, &mut state.stack, count) {
        Ok(selectors) => selectors,
        Err(stop) => return Err(stop),
    };
    begin_associate(alloc, state, selectors)?;
    Ok(())
}

/// A level and all behind it end, and how the construct was left is on top.
fn leave_with(state: &mut State, level: usize, flow: Flow) -> Result<(), Stop>
    requires { state.old.pc < 2 ^ 63 }
    ensures { LeftWith level flow result state.old state.new }
{
    state.store.leave(level);
    state.go_on_with(Cell::Going(flow))
}

/// The values that an ASSOCIATE held end.
#[inline(never)]
pub fn end_associate(state: &mut State) -> Result<(), Stop>
    requires { state.old.pc < 2 ^ 63 }
    ensures { Does EndAssociate result state.old state.new }
{
    let Some(left) = pop_objects(&mut state.stack) else {
        return Err(Stop::Stuck);
    };
    drop(left);
    let Some(flow) = pop_going(&mut state.stack) else {
        return Err(Stop::Stuck);
    };
    let Some((level, objects)) = pop_level(&mut state.stack) else {
        return Err(Stop::Stuck);
    };
    drop(objects);
    leave_with(state, level, flow)
}
