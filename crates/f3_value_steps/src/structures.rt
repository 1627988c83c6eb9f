//! Structure constructors.

ghost use Rattle.std.specs.Prelude.{◌≡◌, ◌<◌, ◌^◌, MatchOption, None, Some, IfOk, length, map, slice_index_or, vec_len};
ghost use Rattle.f3_meaning_whole.specs.Shape.{Whole, parts_in, shapes_of};
ghost use Rattle.f3_meaning_whole.specs.Act.{passed_at, components_of};
ghost use Rattle.f3_meaning_whole.specs.Store as meaning;
ghost use Rattle.f3_code.specs.declared.instruction.Instruction.TheVariants as instruction;
ghost use Rattle.f3_data.specs.Values.{value_of};
ghost use Rattle.f3_data.specs.Stores.{path_of, store_of};
ghost use Rattle.f3_cells.specs.Cells.{passed_of};
ghost use Rattle.f3_value_steps.specs.Ends.{DoesOf};
ghost use Rattle.f3_value_steps.specs.Inner.Positions.{Noted, AreFirsts};
ghost use Rattle.f3_value_steps.specs.Inner.Structures.{number_in, Takes, Builds};

use crate::finish::finish;
use f3_cells::cell::Passed;
use f3_cells::many::pop_arguments;
use f3_cells::scene::Scene;
use f3_cells::state::{State, Stop};
use f3_data::copies;
use f3_data::store::{Path, Store};
use f3_data::value::{self, Value};
use f3_meaning_whole::run_error::RunError;
use f3_program::declarations::{Component, Declared, Derived};
use f3_shaping::fitting::{fitted, fitted_contents};
use f3_shaping::initial::initial_declared;
use std::alloc::{AllocError, Global};

/// The number of an argument.
fn number_of(argument: &Passed) -> usize
    ensures { result ≡ number_in (passed_of argument.now) }
{
    match argument {
        Passed::Given(number, _) | Passed::Lent(number, _) => *number,
    }
}

/// Notes the position of an argument with a number, unless one with that number is noted.
fn note(table: &mut [Option<usize>], number: usize, position: usize)
    ensures { Noted number position table.old table.new }
{
    if number < table.len() && table[number].is_none() {
        table[number] = Some(position);
    }
}

/// The position of the first argument with each number below a count, if there is one.
fn positions(
    alloc: Global,
    count: usize,
    passed: &[Passed],
) -> Result<Vec<Option<usize>>, AllocError>
    ensures len { IfOk result (λ table. vec_len table ≡ count) }
    ensures firsts { IfOk result (λ table. AreFirsts table.items (map passed_of passed.now)) }
{
    let mut table = vec![in alloc; None; count]?;
    for (position, argument) in passed.iter().enumerate() {
        note(&mut table, number_of(argument), position);
    }
    Ok(table)
}

/// The first argument with a number, by the table of positions.
fn argument_at<'a>(
    passed: &'a [Passed],
    table: &[Option<usize>],
    number: usize,
) -> Option<&'a Passed>
    requires inside { number < length table.now }
    requires firsts { AreFirsts table.now (map passed_of passed.now) }
    ensures { MatchOption result (passed_at number (map passed_of passed.now) ≡ None)
        (λ x. passed_at number (map passed_of passed.now) ≡ Some (passed_of x.now)) }
{
    match table[number] {
        Some(position) => Some(&passed[position]),
        None => None,
    }
}

/// A copy of what stands at a path.
fn stored(alloc: Global, store: &Store, path: &Path) -> Result<Value, AllocError>
    ensures { IfOk result (λ v. value_of v ≡ meaning.get (store_of store.now) (path_of path.now)) }
{
    match store.get(path) {
        Some(value) => copies::value(alloc, value),
        None => Ok(Value::Unallocated),
    }
}

/// What a component takes of the argument with its number, or its initial value where there is none (ISO/IEC 1539-1:2004, 4.5.9).
///
/// `Overflow` where a number lies past the range of the type, `ShapesDiffer` (own rules).
fn taken(
    alloc: Global,
    types: &[Derived],
    declared: &Declared,
    passed: &[Passed],
    table: &[Option<usize>],
    number: usize,
    store: &Store,
) -> Result<Result<Value, RunError>, AllocError>
    requires inside { number < length table.now }
    requires firsts { AreFirsts table.now (map passed_of passed.now) }
    ensures { IfOk result (λ r. Takes types.now declared.now (map passed_of passed.now) number (store_of store.now) r) }
{
    match argument_at(passed, table, number) {
        Some(Passed::Given(_, value)) => fitted(alloc, declared, copies::value(alloc, value)?),
        Some(Passed::Lent(_, object)) => fitted_contents(
            alloc,
            declared,
            stored(alloc, store, &object.path)?,
        ),
        None => Ok(Ok(initial_declared(alloc, types, declared)?)),
    }
}

/// The value of a type with these components.
///
/// `Overflow` where a number lies past the range of its type, `ShapesDiffer` (own rules).
fn built_of(
    alloc: Global,
    types: &[Derived],
    components: &[Component],
    passed: &[Passed],
    store: &Store,
) -> Result<Result<Value, RunError>, AllocError>
    ensures { IfOk result (λ r. Builds (parts_in (shapes_of types.now) components.now) (map passed_of passed.now) (store_of store.now) r) }
{
    let table = positions(alloc, components.len(), passed)?;
    let mut values = Vec::new(alloc);
    for (number, component) in components.iter().enumerate() {
        match taken(
            alloc,
            types,
            &component.declared,
            passed,
            &table,
            number,
            store,
        )? {
            Ok(value) => values.push(value)?,
            Err(error) => return Ok(Err(error)),
        }
    }
    Ok(Ok(value::composite(values)))
}

/// The value of the type of a number: without components where there is no such type.
///
/// `Overflow` where a number lies past the range of its type, `ShapesDiffer` (own rules).
fn value_of_type(
    alloc: Global,
    types: &[Derived],
    of: usize,
    passed: &[Passed],
    store: &Store,
) -> Result<Result<Value, RunError>, AllocError>
    ensures { IfOk result (λ r. Builds (components_of (slice_index_or (shapes_of types.now) of Whole)) (map passed_of passed.now) (store_of store.now) r) }
{
    if of >= types.len() {
        return Ok(Ok(value::composite(Vec::new(alloc))));
    }
    built_of(alloc, &types[..of], &types[of].components, passed, store)
}

/// A structure constructor of a type with so many arguments (4.5.9).
///
/// `Overflow` where a number lies past the range of its type, `ShapesDiffer` (own rules).
#[inline(never)]
pub fn structure(
    alloc: Global,
    scene: &Scene<'_>,
    state: &mut State,
    of: usize,
    count: usize,
) -> Result<(), Stop>
    requires { state.old.pc < 2 ^ 63 }
    ensures { DoesOf scene.now (instruction.Structure of count) result state.old state.new }
{
    let passed = match pop_arguments(alloc, &mut state.stack, count) {
        Ok(passed) => passed,
        Err(stop) => return Err(stop),
    };
    let given = value_of_type(alloc, &scene.program.types, of, &passed, &state.store)?;
    drop(passed);
    finish(state, given)
}
