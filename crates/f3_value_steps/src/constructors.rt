//! Array and structure constructors.

ghost use Rattle.std.specs.Prelude.{◌≡◌, ◌<◌, ◌^◌, [], ◌∷◌, ◌++◌, IfOk, OnOk, map};
ghost use Rattle.f3_meaning_whole.specs.Act.{given};
ghost use Rattle.f3_code.specs.declared.instruction.Instruction.TheVariants as instruction;
ghost use Rattle.f3_data.specs.Values.{value_of, values_of};
ghost use Rattle.f3_cells.specs.Cells.{passed_of};
ghost use Rattle.f3_cells.specs.Follows.{Does};
ghost use Rattle.f3_value_steps.specs.Ends.{vector_of};

use crate::finish::finish_built;
use f3_cells::cell::Passed;
use f3_cells::many::pop_arguments;
use f3_cells::state::{State, Stop};
use f3_data::value::{self, Span, Value};
use std::alloc::{AllocError, Global};

/// The value of an argument comes behind values; an object does not.
fn push_given(values: &mut Vec<Value>, argument: Passed) -> Result<(), AllocError>
    ensures { OnOk result (values_of values.new.items ≡ values_of values.old.items ++ given (passed_of argument ∷ [])) }
{
    match argument {
        Passed::Given(_, value) => {
            values.push(value)?;
            Ok(())
        }
        Passed::Lent(_, object) => {
            drop(object);
            Ok(())
        }
    }
}

/// The values among arguments, in their order.
fn given(alloc: Global, passed: Vec<Passed>) -> Result<Vec<Value>, AllocError>
    ensures { IfOk result (λ vs. values_of vs.items ≡ given (map passed_of passed.items)) }
{
    let mut values = Vec::new(alloc);
    for argument in passed {
        push_given(&mut values, argument)?;
    }
    Ok(values)
}

/// An array of rank 1 with these elements, from 1 on.
fn vector(alloc: Global, values: Vec<Value>) -> Result<Value, AllocError>
    ensures { IfOk result (λ v. value_of v ≡ vector_of (values_of values.items)) }
{
    let mut spans = Vec::new(alloc);
    spans.push(Span {
        lower: 1,
        extent: values.len() as u64,
    })?;
    value::array(alloc, spans, values)
}

/// An array constructor with so many values (ISO/IEC 1539-1:2004, 4.7).
#[inline(never)]
pub fn array(alloc: Global, state: &mut State, count: usize) -> Result<(), Stop>
    requires { state.old.pc < 2 ^ 63 }
    ensures { Does (instruction.Array count) result state.old state.new }
{
    let passed = match pop_arguments(alloc, &mut state.stack, count) {
        Ok(passed) => passed,
        Err(stop) => return Err(stop),
    };
    let values = given(alloc, passed)?;
    let value = vector(alloc, values)?;
    finish_built(state, Ok(value))
}
