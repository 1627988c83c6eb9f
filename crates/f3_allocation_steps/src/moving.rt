//! What an object takes over from another.

ghost use Rattle.std.specs.Prelude.{◌≡◌, ◌<◌, ◌^◌, OnOk, drop, length};
ghost use Rattle.f3_places.specs.declared.source.Place.{Place};
ghost use Rattle.f3_meaning_whole.specs.Value as m;
ghost use Rattle.f3_meaning_whole.specs.Value.{spread};
ghost use Rattle.f3_meaning_whole.specs.Store.{get, put_all};
ghost use Rattle.f3_meaning_whole.specs.Reference.{paths};
ghost use Rattle.f3_data.specs.Stores.{path_of, store_of};
ghost use Rattle.f3_data.specs.References.{reference_of};
ghost use Rattle.f3_data.specs.Lent.{lent_of};
ghost use Rattle.f3_code.specs.declared.instruction.Instruction.TheVariants as i;
ghost use Rattle.f3_cells.specs.Follows.{DoesAt};
ghost use Rattle.f3_allocation_steps.specs.Acts.{TakesOver};

use f3_cells::stacks::pop_object;
use f3_cells::state::{State, Stop};
use f3_data::lent::{Lent, unlend};
use f3_data::reference::{Reach, Reference};
use f3_data::store::Store;
use f3_data::value::Value;
use f3_located::changes;
use f3_located::parts::held_at;
use f3_located::pins::is_pinned;
use f3_located::reads::copy_at;
use f3_meaning_whole::run_error::RunError;
use std::alloc::{AllocError, Global};

/// An object is unallocated, and then another takes what it held: the value itself where each of them is one object.
fn hand_over(
    alloc: Global,
    store: &mut Store,
    from: &Reference,
    to: &Reference,
) -> Result<(), AllocError>
    ensures { (x : m.Value) → get (store_of store.old) (path_of from.now.path) ≡ m.Allocated x → OnOk result (store_of store.new ≡ put_all (paths (reference_of to.now)) (spread (length (paths (reference_of to.now))) (m.Allocated x)) (put_all (paths (reference_of from.now)) (spread (length (paths (reference_of from.now))) m.Unallocated) (store_of store.old))) }
{
    match (&from.reach, &to.reach) {
        (Reach::One, Reach::One) => {
            store.hand_over(&from.path, &to.path);
            Ok(())
        }
        _ => {
            let held = copy_at(alloc, store, &from.path)?;
            changes::set(alloc, store, from, Value::Unallocated)?;
            changes::set(alloc, store, to, held)
        }
    }
}

/// An object takes what another holds, if it holds something (ISO/IEC 1539-1:2004, 13.7.82). `InUse` where that is in use (own rule).
fn take_contents(
    alloc: Global,
    store: &mut Store,
    from: &Reference,
    to: &Reference,
    lent: &Lent,
) -> Result<(), Stop>
    ensures { TakesOver (reference_of from.now) (reference_of to.now) (lent_of lent.now) result store.old store.new }
{
    let Some(_) = held_at(store, &from.path) else {
        return Ok(());
    };
    if is_pinned(&from.path, lent) {
        return Err(Stop::Failed(RunError::InUse));
    }
    hand_over(alloc, store, from, to)?;
    Ok(())
}

/// The two objects that were lent last are lent no longer.
fn unlend_both(lent: &mut Lent) -> Result<(), AllocError>
    ensures { OnOk result (lent_of lent.new ≡ drop 2 (lent_of lent.old)) }
{
    unlend(lent)?;
    unlend(lent)
}

/// The object on top takes what the other holds, and both are lent no longer (13.7.82). `InUse` (own rule).
#[inline(never)]
pub fn take_over(alloc: Global, state: &mut State) -> Result<(), Stop>
    requires { state.old.pc < 2 ^ 63 }
    ensures { (place : Place) → DoesAt place i.TakeOver result state.old state.new }
{
    let Some(to) = pop_object(&mut state.stack) else {
        return Err(Stop::Stuck);
    };
    let Some(from) = pop_object(&mut state.stack) else {
        drop(to);
        return Err(Stop::Stuck);
    };
    let done = take_contents(alloc, &mut state.store, &from, &to, &state.here.lent);
    drop(from);
    drop(to);
    match done {
        Ok(()) => {
            unlend_both(&mut state.here.lent)?;
            state.advance();
            Ok(())
        }
        Err(stop) => Err(stop),
    }
}
