//! Arguments of a call, and what the dummies are for them.

ghost use Rattle.std.specs.Prelude.{◌≡◌, ◌+◌, ◌<◌, ◌^◌, ◌++◌, ◌∷◌, [], IfOk, OnOk, length, map, vec_len};
ghost use Rattle.f3_meaning_whole.specs.Exec as x;
ghost use Rattle.f3_meaning_whole.specs.Exec.{bound, held};
ghost use Rattle.f3_data.specs.Values.{values_of};
ghost use Rattle.f3_data.specs.References.{reference_of, references_of};
ghost use Rattle.f3_cells.specs.Cells.{passed_of};
ghost use Rattle.f3_call_steps.specs.Inner.Standing.{Noted, AreFirsts, StandsIn, argument_of, stand_of};

use f3_cells::cell::Passed;
use f3_data::copies;
use f3_data::reference::{Reference, Right};
use f3_data::store::Root;
use f3_data::value::Value;
use f3_located::dummies::bind;
use f3_located::names::to_value;
use f3_program::declarations::Base;
use f3_program::program::Dummy;
use std::alloc::{AllocError, Global};

/// How many dummies are a few.
const FEW: usize = 8;

/// Where an argument stands: its position among the arguments, and the slot of its value among those that are held.
#[derive(Clone, Copy)]
struct Stand {
    position: usize,
    slot: usize,
}

/// Notes where an argument of a number stands, unless one of that number is noted.
fn note(table: &mut [Option<Stand>], number: usize, stand: Stand)
    ensures { Noted number stand table.old table.new }
{
    if number < table.len() && table[number].is_none() {
        table[number] = Some(stand);
    }
}

/// Where the first argument of each number below a count stands, if there is one.
fn stands(
    alloc: Global,
    count: usize,
    arguments: &[Passed],
) -> Result<Vec<Option<Stand>>, AllocError>
    requires slots { length arguments.now < 2 ^ 63 }
    ensures len { IfOk result (λ table. vec_len table ≡ count) }
    ensures firsts { IfOk result (λ table. AreFirsts table.items (map passed_of arguments.now)) }
{
    let mut table = vec![in alloc; None; count]?;
    let mut slot = 0;
    for (position, argument) in arguments.iter().enumerate() {
        match argument {
            Passed::Given(number, _) => {
                note(&mut table, *number, Stand { position, slot });
                slot += 1;
            }
            Passed::Lent(number, _) => note(&mut table, *number, Stand { position, slot }),
        }
    }
    Ok(table)
}

/// Where the first argument of a number stands, if there is one.
fn find_stand(arguments: &[Passed], number: usize) -> Option<Stand>
    requires slots { length arguments.now < 2 ^ 63 }
    ensures { result ≡ stand_of number (map passed_of arguments.now) 0 0 }
{
    let mut held = 0;
    for (position, argument) in arguments.iter().enumerate() {
        match argument {
            Passed::Given(k, _) => {
                if *k == number {
                    return Some(Stand {
                        position,
                        slot: held,
                    });
                }
                held += 1;
            }
            Passed::Lent(k, _) => {
                if *k == number {
                    return Some(Stand {
                        position,
                        slot: held,
                    });
                }
            }
        }
    }
    None
}

/// The argument that stands there for a dummy of a type (ISO/IEC 1539-1:2004, 12.4.1), where the values that are held stand
/// on a level; without one, an object that is not allocated.
#[inline(always)]
fn argument_of(
    alloc: Global,
    stand: Option<Stand>,
    of: Base,
    arguments: &[Passed],
    level: usize,
    unit: usize,
) -> Result<Reference, AllocError>
    requires levels { level < 2 ^ 63 }
    requires inside { StandsIn stand (length arguments.now) }
    ensures { IfOk result (λ r. reference_of r ≡ argument_of stand of (map passed_of arguments.now) level unit) }
{
    let Some(stand) = stand else {
        return to_value(
            alloc,
            Root::Local(level + 1, 0),
            of,
            Right::Define,
            unit,
            &Value::Unallocated,
        );
    };
    match &arguments[stand.position] {
        Passed::Given(_, value) => to_value(
            alloc,
            Root::Local(level, stand.slot),
            of,
            Right::Read,
            unit,
            value,
        ),
        Passed::Lent(_, object) => copies::reference(alloc, object),
    }
}

/// What a dummy is for the argument that stands there.
#[inline(always)]
fn dummy_for(
    alloc: Global,
    stand: Option<Stand>,
    dummy: &Dummy,
    arguments: &[Passed],
    level: usize,
    unit: usize,
) -> Result<Reference, AllocError>
    requires levels { level < 2 ^ 63 }
    requires inside { StandsIn stand (length arguments.now) }
    ensures { IfOk result (λ r. reference_of r ≡ bound dummy.now (argument_of stand dummy.now.kind.of (map passed_of arguments.now) level unit)) }
{
    let mut object = argument_of(alloc, stand, dummy.kind.of, arguments, level, unit)?;
    bind(&mut object, dummy);
    Ok(object)
}

/// The objects of a few dummies (12.4.1.2): for each of them the arguments are gone through.
fn few_dummies(
    alloc: Global,
    declared: &[Dummy],
    arguments: &[Passed],
    level: usize,
    unit: usize,
) -> Result<Vec<Reference>, AllocError>
    requires levels { level < 2 ^ 63 }
    requires slots { length arguments.now < 2 ^ 63 }
    ensures { IfOk result (λ rs. references_of rs.items ≡ x.dummies 0 declared.now (map passed_of arguments.now) level unit) }
{
    let mut objects = Vec::with_capacity(alloc, declared.len())?;
    for (number, dummy) in declared.iter().enumerate() {
        let stand = find_stand(arguments, number);
        objects.push(dummy_for(alloc, stand, dummy, arguments, level, unit)?)?;
    }
    Ok(objects)
}

/// The objects of any number of dummies (12.4.1.2): the arguments are gone through once.
#[inline(never)]
fn many_dummies(
    alloc: Global,
    declared: &[Dummy],
    arguments: &[Passed],
    level: usize,
    unit: usize,
) -> Result<Vec<Reference>, AllocError>
    requires levels { level < 2 ^ 63 }
    requires slots { length arguments.now < 2 ^ 63 }
    ensures { IfOk result (λ rs. references_of rs.items ≡ x.dummies 0 declared.now (map passed_of arguments.now) level unit) }
{
    let table = stands(alloc, declared.len(), arguments)?;
    let mut objects = Vec::new(alloc);
    for (number, dummy) in declared.iter().enumerate() {
        objects.push(dummy_for(alloc, table[number], dummy, arguments, level, unit)?)?;
    }
    Ok(objects)
}

/// The objects of the dummies (12.4.1.2).
pub(crate) fn dummies(
    alloc: Global,
    declared: &[Dummy],
    arguments: &[Passed],
    level: usize,
    unit: usize,
) -> Result<Vec<Reference>, AllocError>
    requires levels { level < 2 ^ 63 }
    requires slots { length arguments.now < 2 ^ 63 }
    ensures { IfOk result (λ rs. references_of rs.items ≡ x.dummies 0 declared.now (map passed_of arguments.now) level unit) }
{
    if declared.len() > FEW {
        return many_dummies(alloc, declared, arguments, level, unit);
    }
    few_dummies(alloc, declared, arguments, level, unit)
}

/// A copy of the value of an argument that is one.
fn hold(alloc: Global, values: &mut Vec<Value>, argument: &Passed) -> Result<(), AllocError>
    ensures { OnOk result (values_of values.new.items ≡ values_of values.old.items ++ held (passed_of argument.now ∷ [])) }
{
    match argument {
        Passed::Given(_, Value::Number(number)) => {
            values.push(Value::Number(*number))?;
            Ok(())
        }
        Passed::Given(_, value) => {
            values.push(copies::value(alloc, value)?)?;
            Ok(())
        }
        Passed::Lent(_, _) => Ok(()),
    }
}

/// How many arguments are values.
fn given(arguments: &[Passed]) -> usize {
    arguments
        .iter()
        .filter(|argument| matches!(argument, Passed::Given(_, _)))
        .count()
}

/// Copies of the values that are held for a call (ISO/IEC 1539-1:2004, 12.4.1.2).
///
/// `AllocError` where the host has no memory for them.
pub fn held(alloc: Global, arguments: &[Passed]) -> Result<Vec<Value>, AllocError>
    ensures { IfOk result (λ vs. values_of vs.items ≡ held (map passed_of arguments.now)) }
{
    let mut values = Vec::with_capacity(alloc, given(arguments))?;
    for argument in arguments {
        hold(alloc, &mut values, argument)?;
    }
    Ok(values)
}
