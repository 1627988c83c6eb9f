//! The state in which a run begins.

ghost use Rattle.std.specs.Prelude.{◌≡◌, true, Some, IfOk, MatchOption, map};
ghost use Rattle.f3_program.specs.declared.program.Static as y;
ghost use Rattle.f3_meaning_whole.specs.Exec.{initial_value};
ghost use Rattle.f3_meaning_whole.specs.Run.{setting_of};
ghost use Rattle.f3_data.specs.Values.{values_of};
ghost use Rattle.f3_data.specs.Stores.{store_of};
ghost use Rattle.f3_code.specs.Account.{block, level_words, used};
ghost use Rattle.f3_code.specs.Heap.{is_full};
ghost use Rattle.f3_machine.specs.Steps.{Begins, Denied, HasBegun, IsDenied};

use f3_call_steps::activations::variables;
use f3_cells::cell::Here;
use f3_cells::state::State;
use f3_data::account::{block, level_words};
use f3_data::lent::Lent;
use f3_data::store::Store;
use f3_data::value::Value;
use f3_program::program::Program;
use f3_shaping::initial::initial_declared;
use std::alloc::{AllocError, Global};

/// The values with which what lives for the whole run begins (ISO/IEC 1539-1:2004, 16.5.3).
fn first_statics(alloc: Global, program: &Program) -> Result<Vec<Value>, AllocError>
    ensures { IfOk result (λ vs. values_of vs.items ≡ map (λ (s : y.Static). initial_value (setting_of program.now) s.declared) program.now.statics.items) }
{
    let mut values = Vec::new(alloc);
    for variable in &program.statics {
        values.push(initial_declared(alloc, &program.types, &variable.declared)?)?;
    }
    Ok(values)
}

/// Whether a heap of a size refuses what the main program wants for its variables, beside what lives for the whole run.
fn is_denied(size: u64, store: &Store, variables: &[Value]) -> bool
    ensures { result ≡ is_full size (used (store_of store.now)) (Some (block (level_words (values_of variables.now)))) }
{
    size < store.used().wrapping_add(block(level_words(variables)))
}

/// The store, with the variables of the main program (11.1): none where the heap refuses their block.
fn first_store(alloc: Global, program: &Program, size: u64) -> Result<Option<Store>, AllocError>
    ensures { IfOk result (λ o. MatchOption o (IsDenied size program.now ≡ true) (λ s. HasBegun size program.now (store_of s))) }
{
    let statics = first_statics(alloc, program)?;
    let main = variables(alloc, program, &program.main)?;
    let mut store = Store::new(alloc, statics);
    if is_denied(size, &store, &main) {
        drop(store);
        drop(main);
        return Ok(None);
    }
    store.enter(main)?;
    Ok(Some(store))
}

/// The state in which the main program begins over a heap of a size: none where the heap refuses the block of its variables.
///
/// `AllocError` where the host has no memory for it.
pub fn begin(alloc: Global, program: &Program, size: u64) -> Result<Option<State>, AllocError>
    ensures { IfOk result (λ o. MatchOption o (Denied size program.now) (λ t. Begins size program.now t)) }
{
    let Some(store) = first_store(alloc, program, size)? else {
        return Ok(None);
    };
    let here = Here {
        place: program.start,
        unit: program.main.unit,
        level: 0,
        procedure: None,
        names: Vec::new(alloc),
        lent: Lent::Nothing,
        selected: Value::Unallocated,
    };
    Ok(Some(State {
        pc: 0,
        stack: Vec::new(alloc),
        here,
        frames: Vec::new(alloc),
        store,
    }))
}
