//! The variables of an activation.

ghost use Rattle.std.specs.Prelude.{◌≡◌, ◌++◌, IfOk, IfSome, OnOk, length};
ghost use Rattle.f3_program.specs.declared.declarations.Declared as d;
ghost use Rattle.f3_program.specs.declared.program.Program.{Program};
ghost use Rattle.f3_meaning_whole.specs.Exec.{initial_value, variables, with_result};
ghost use Rattle.f3_meaning_whole.specs.Run.{setting_of};
ghost use Rattle.f3_meaning_whole.specs.Ran.{Entered, effect};
ghost use Rattle.f3_data.specs.Values.{value_of, values_of};
ghost use Rattle.f3_data.specs.Stores.{store_of};
ghost use Rattle.std.specs.Prelude.{map};

use f3_data::store::Store;
use f3_data::value::Value;
use f3_program::declarations::{Base, Declared};
use f3_program::program::{Procedure, Program};
use f3_shaping::initial::initial_declared;
use std::alloc::{AllocError, Global};

/// The value with which a scalar of an intrinsic type begins that is not initialized.
fn scalar_value(declared: &Declared) -> Option<Value>
    ensures { IfSome result (λ v. (p : Program) → value_of v ≡ initial_value (setting_of p) declared.now) }
{
    if declared.kind.is_allocatable {
        return None;
    }
    if declared.kind.rank > 0 {
        return None;
    }
    if !declared.initial.is_empty() {
        return None;
    }
    match declared.kind.of {
        Base::Integer | Base::Long => Some(Value::Number(0)),
        Base::Logical => Some(Value::Truth(false)),
        Base::Derived(_) => None,
    }
}

/// The value with which a variable begins (ISO/IEC 1539-1:2004, 16.5).
fn initial_value(alloc: Global, program: &Program, declared: &Declared) -> Result<Value, AllocError>
    ensures { IfOk result (λ v. value_of v ≡ initial_value (setting_of program.now) declared.now) }
{
    match scalar_value(declared) {
        Some(value) => Ok(value),
        None => initial_declared(alloc, &program.types, declared),
    }
}

/// The values with which variables begin, with room for so many in all.
fn initial_values(
    alloc: Global,
    program: &Program,
    declared: &[Declared],
    room: usize,
) -> Result<Vec<Value>, AllocError>
    ensures { IfOk result (λ vs. values_of vs.items ≡ map (initial_value (setting_of program.now)) declared.now) }
{
    let mut values = Vec::with_capacity(alloc, room)?;
    for variable in declared {
        values.push(initial_value(alloc, program, variable)?)?;
    }
    Ok(values)
}

/// How many variables a procedure has, its result among them.
fn room_for(procedure: &Procedure) -> usize {
    match procedure.result {
        Some(_) => procedure.locals.len().saturating_add(1),
        None => procedure.locals.len(),
    }
}

/// The values with which the variables of an activation of a procedure begin; the result stands behind the others.
///
/// `AllocError` where the host has no memory for them.
pub fn variables(
    alloc: Global,
    program: &Program,
    procedure: &Procedure,
) -> Result<Vec<Value>, AllocError>
    ensures { IfOk result (λ vs. values_of vs.items ≡ variables (setting_of program.now) procedure.now) }
{
    let room = room_for(procedure);
    let mut values = initial_values(alloc, program, &procedure.locals, room)?;
    if let Some(declared) = &procedure.result {
        values.push(initial_value(alloc, program, declared)?)?;
    }
    Ok(values)
}

/// Levels for an activation begin: of the values that are held for it, and of its variables (12.4, 16.5).
pub(crate) fn enter(
    store: &mut Store,
    held: Vec<Value>,
    variables: Vec<Value>,
) -> Result<(), AllocError>
    ensures { OnOk result (store_of store.new ≡ effect (Entered (values_of variables.items)) (effect (Entered (values_of held.items)) (store_of store.old))) }
{
    store.enter(held)?;
    store.enter(variables)
}
